ghost use Rattle.std.specs.Prelude.{◌≡◌, ◌≤◌, ◌<◌, ◌+◌, ◌^◌, length, map, IfOk, IfErr};
ghost use Rattle.std.specs.Option.{option_copied};
ghost use Rattle.session.specs.Frame.{BoardPart};
ghost use Rattle.session.specs.Inside.Frames.{IsBoardRead, IsRestFault, IsRestRead, IsTextFault, IsTextRead};
ghost use Rattle.session.specs.Inside.Progress.{IsBehind};
ghost use Rattle.session.specs.Inside.Read.{IsRead, IsFaultOf};
ghost use Rattle.session.specs.Session.{session_limit};

use crate::fault::{SessionFault, SessionKind};
use crate::progress::Progress;
use crate::setup::Setup;
use item_list::Items;
use rows::Call;
use rows::reading::split_first;
use std::alloc::Global;

/// The parts of a session, before its board is read.
#[derive(Drop)]
pub(crate) struct FrameRead<'a> {
    /// The text of the board, where it isn't the built-in one.
    pub(crate) text: Option<&'a [u8]>,
    pub(crate) setup: Items<Setup>,
    pub(crate) scripts: Items<Items<Call>>,
}

/// The board of a session, and what stands behind it.
#[derive(Clone, Copy)]
struct BoardRead<'a> {
    /// The text of the board, where it isn't the built-in one.
    text: Option<&'a [u8]>,
    rest: &'a [u8],
    /// The number of the first line of the rest.
    number: u32,
}

fn fault(line: u32, kind: SessionKind) -> SessionFault
    ensures { result ≡ record { line = line; kind = kind } }
{
    SessionFault { line, kind }
}

/// The parts of a session, or the first line at which its text leaves the grammar.
pub(crate) fn read_frame<'a>(alloc: Global, bytes: &'a [u8]) -> Result<FrameRead<'a>, SessionFault>
    requires { length bytes.now ≤ session_limit }
    ensures frame { IfOk result (λ frame. IsRead bytes.now (record { text = option_copied frame.text; setup = frame.setup; scripts = frame.scripts })) }
    ensures fault { IfErr result (IsFaultOf bytes.now) }
{
    let board = read_head(bytes)?;
    let rest = read_rest(alloc, board.text.is_none(), board.number, board.rest)?;
    let Progress { setup, scripts, .. } = rest;
    Ok(FrameRead {
        text: board.text,
        setup,
        scripts,
    })
}

/// Reads the first line of a session and its board.
fn read_head<'a>(bytes: &'a [u8]) -> Result<BoardRead<'a>, SessionFault>
    requires { length bytes.now ≤ session_limit }
    ensures board { IfOk result (λ read. IsBoardRead bytes.now (option_copied read.text) read.rest.now read.number) }
    ensures fault { IfErr result (IsFaultOf bytes.now) }
{
    let Some((line, rest)) = split_first(bytes, b'\n') else {
        return Err(fault(1, SessionKind::BadSession));
    };
    if line != b"%session 1".as_slice() {
        return Err(fault(1, SessionKind::BadSession));
    }
    let Some((line, rest)) = split_first(rest, b'\n') else {
        return Err(fault(2, SessionKind::BadSession));
    };
    if line == b"%board demo".as_slice() {
        return Ok(BoardRead {
            text: None,
            rest,
            number: 3,
        });
    }
    if line == b"%board dts".as_slice() {
        return read_text(rest);
    }
    Err(fault(2, SessionKind::BadSession))
}

/// Reads the text of a board.
fn read_text<'a>(text: &'a [u8]) -> Result<BoardRead<'a>, SessionFault>
    requires { length text.now ≤ session_limit }
    ensures board { IfOk result (λ read. IsTextRead text.now (option_copied read.text) read.rest.now read.number) }
    ensures fault { IfErr result (IsTextFault text.now) }
{
    let mut rest = text;
    let mut number = 3;
    'lines: while let Some((line, more)) = split_first(rest, b'\n') {
        number += 1;
        if line == b"%end".as_slice() {
            return Ok(BoardRead {
                text: Some(&text[..text.len() - rest.len()]),
                rest: more,
                number,
            });
        }
        rest = more;
    }
    Err(fault(number, SessionKind::BadSession))
}

/// Reads the lines behind the board, from the line of this number on.
fn read_rest(alloc: Global, demo: bool, first: u32, text: &[u8]) -> Result<Progress, SessionFault>
    requires { first + length text.now < 2 ^ 32 }
    ensures rest { IfOk result (λ progress. (board : BoardPart) → IsBehind board demo first → IsRestRead board text.now progress) }
    ensures fault { IfErr result (λ fault. (board : BoardPart) → IsBehind board demo first → IsRestFault board text.now fault) }
{
    let mut progress = Progress::new(alloc, demo);
    let mut rest = text;
    let mut number = first;
    'lines: while let Some((line, more)) = split_first(rest, b'\n') {
        if let Err(kind) = progress.take_line(alloc, line) {
            return Err(fault(number, kind));
        }
        rest = more;
        number += 1;
    }
    let whole = rest.is_empty();
    if whole && progress.is_done() {
        return Ok(progress);
    }
    Err(fault(number, SessionKind::BadSession))
}
