ghost use Rattle.std.specs.Prelude.{◌≡◌, ◌≢◌, ◌≤◌, ◌==◌, count_by, length, All, IfOk, IfErr, IfSome};
ghost use Rattle.std.specs.Option.{option_copied};
ghost use Rattle.board.specs.Valid.{IsValid};
ghost use Rattle.board_load.specs.Loading.{HasValueInside};
ghost use Rattle.board_load.specs.Registers.{NameChips};
ghost use Rattle.dts_lex.specs.Lex.{lexed};
ghost use Rattle.session.specs.BoardText.{line_at, of_lex, of_tree, of_board, no_memory, TokensCome};
ghost use Rattle.session.specs.Inside.Loaded.{IsTreeOf, TextComes, lines_before};
ghost use Rattle.session.specs.Session.{session_limit};

use crate::fault::{SessionFault, SessionKind};
use board_draft::{BoardFault, Drafted, draft};
use board_load::demo;
use board_load::laws::drafts_have_values;
use dts_lex::{LexFault, Token, lex};
use dts_tree::{Tree, TreeFault, parse};
use std::alloc::{AllocError, Global};

/// How many lines end in a part of a text.
fn lines_in(part: &[u8]) -> u32
    requires { length part.now ≤ session_limit }
    ensures { result ≡ count_by (λ byte. byte == 10) part.now }
{
    part.iter().filter(|byte| **byte == b'\n').count() as u32
}

/// The line of a session that holds a byte of its board's text, which begins at line 3.
fn line_at(text: &[u8], at: u32) -> u32
    requires { length text.now ≤ session_limit }
    ensures { result ≡ line_at text.now at }
{
    let end = text.len().min(at as usize);
    3 + lines_in(&text[..end])
}

/// How many lines stand before the setup of a session.
pub(crate) fn lines_before(text: Option<&[u8]>) -> u32
    requires { IfSome (option_copied text) (λ text. length text ≤ session_limit) }
    ensures { result ≡ lines_before (option_copied text.entry) }
{
    match text {
        None => 2,
        Some(text) => line_at(text, text.len() as u32),
    }
}

/// What can't be read of a text.
fn of_lex(text: &[u8], fault: LexFault) -> SessionFault
    requires { length text.now ≤ session_limit }
    ensures { result ≡ of_lex text.now fault }
{
    let (at, kind) = match fault {
        LexFault::BadChar(at) => (at, SessionKind::BadChar(at)),
        LexFault::Unclosed(at) => (at, SessionKind::Unclosed(at)),
        LexFault::NumberTooWide(at) => (at, SessionKind::NumberTooWide(at)),
        LexFault::Memory => return SessionFault::from(AllocError),
    };
    SessionFault {
        line: line_at(text, at),
        kind,
    }
}

/// Why the tokens of a text are no tree.
fn of_tree(text: &[u8], fault: TreeFault) -> SessionFault
    requires { length text.now ≤ session_limit }
    ensures { result ≡ of_tree text.now fault }
{
    let (at, kind) = match fault {
        TreeFault::Syntax(at) => (at, SessionKind::Syntax(at)),
        TreeFault::NoLabel(at) => (at, SessionKind::NoLabel(at)),
        TreeFault::TwoLabels(at) => (at, SessionKind::TwoLabels(at)),
        TreeFault::NotSupported { at, end: _ } => (at, SessionKind::NotSupported(at)),
        TreeFault::TooDeep(at) => (at, SessionKind::TooDeep(at)),
        TreeFault::Memory => return SessionFault::from(AllocError),
    };
    SessionFault {
        line: line_at(text, at),
        kind,
    }
}

/// Why a tree is no board, at the line of the board.
fn of_board(fault: BoardFault) -> SessionFault
    ensures memory { fault ≡ BoardFault.Memory → result ≡ no_memory }
    ensures board { fault ≢ BoardFault.Memory → result ≡ of_board fault }
{
    match fault {
        BoardFault::Memory => SessionFault::from(AllocError),
        fault => SessionFault {
            line: 2,
            kind: SessionKind::Board(fault),
        },
    }
}

/// The tokens of a text.
fn tokens_of(alloc: Global, text: &[u8]) -> Result<Vec<Token>, SessionFault>
    requires { length text.now ≤ session_limit }
    ensures tokens { IfOk result (λ tokens. lexed text.now ≡ Ok tokens.items) }
    ensures fault { IfErr result (λ fault. fault.kind ≢ SessionKind.Memory → TokensCome text.now (lexed text.now) (Err fault)) }
{
    match lex(alloc, text) {
        Ok(tokens) => Ok(tokens),
        Err(fault) => Err(of_lex(text, fault)),
    }
}

/// The tree of a text.
fn tree_of(alloc: Global, text: &[u8]) -> Result<Tree, SessionFault>
    requires { length text.now ≤ session_limit }
    ensures tree { IfOk result (λ tree. IsTreeOf text.now tree) }
    ensures fault { IfErr result (λ fault. fault.kind ≢ SessionKind.Memory → TokensCome text.now (lexed text.now) (Err fault)) }
{
    let tokens = tokens_of(alloc, text)?;
    match parse(alloc, text, &tokens) {
        Ok(tree) => Ok(tree),
        Err(fault) => Err(of_tree(text, fault)),
    }
}

/// The board of a text.
fn draft_text(alloc: Global, text: &[u8]) -> Result<Drafted, SessionFault>
    requires { length text.now ≤ session_limit }
    ensures board { IfOk result (λ drafted. TokensCome text.now (lexed text.now) (Ok drafted)) }
    ensures fault { IfErr result (λ fault. fault.kind ≢ SessionKind.Memory → TokensCome text.now (lexed text.now) (Err fault)) }
    ensures valid { IfOk result (λ drafted. IsValid drafted.board) }
    ensures inside { IfOk result (λ drafted. All HasValueInside drafted.board.rails) }
    ensures resets { IfOk result (λ drafted. NameChips drafted.board.chips drafted.resets) }
{
    let tree = tree_of(alloc, text)?;
    drafts_have_values();
    match draft(alloc, &tree) {
        Ok(drafted) => Ok(drafted),
        Err(fault) => Err(of_board(fault)),
    }
}

/// The board of a session: the built-in one, or that of its text.
pub(crate) fn draft_board(alloc: Global, text: Option<&[u8]>) -> Result<Drafted, SessionFault>
    requires { IfSome (option_copied text) (λ text. length text ≤ session_limit) }
    ensures board { IfOk result (λ drafted. TextComes (option_copied text.entry) (Ok drafted)) }
    ensures fault { IfErr result (λ fault. fault.kind ≢ SessionKind.Memory → TextComes (option_copied text.entry) (Err fault)) }
    ensures valid { IfOk result (λ drafted. IsValid drafted.board) }
    ensures inside { IfOk result (λ drafted. All HasValueInside drafted.board.rails) }
    ensures resets { IfOk result (λ drafted. NameChips drafted.board.chips drafted.resets) }
{
    match text {
        None => Ok(demo(alloc)?),
        Some(text) => draft_text(alloc, text),
    }
}
