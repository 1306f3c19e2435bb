ghost use Rattle.std.specs.Prelude.{◌≡◌, ◌≢◌, ◌≤◌, length, IfOk, IfErr, if◌then◌else◌, true, false};
ghost use Rattle.dts_lex.specs.Lex.{lexed, SpansRise, ends_part, is_the_sign};

use crate::fault::LexFault;
use crate::piece::{Piece, piece_at};
use crate::token::{Kind, Token};
use std::alloc::Global;

/// The tokens of a text, in its order, or its first fault. Behind a word of the preprocessor, a
/// directive other than `/dts-v1/`, `&{` or `(` nothing is looked at: that token is the last.
/// At `Memory` nothing is said of the text.
#[tactic(auto, using(crate::proofs::LexLemmas::remains_start))]
pub fn lex(alloc: Global, text: &[u8]) -> Result<Vec<Token>, LexFault>
    requires { length text.now ≤ 4294967295 }
    ensures tokens { IfOk result (λ tokens. lexed text.now ≡ Ok tokens.items) }
    ensures fault { IfErr result (λ fault. fault ≢ LexFault.Memory → lexed text.now ≡ Err fault) }
    ensures spans { IfOk result (λ tokens. SpansRise 0 (length text.now) tokens.items) }
{
    let mut tokens = Vec::new(alloc);
    let mut at = 0;
    let mut comma_alone = false;
    let mut in_cells = false;
    while at < text.len() {
        let first = text[at];
        match piece_at(text, at, comma_alone, in_cells)? {
            Piece::Gap(end) => at = end,
            Piece::Token(kind, end) => {
                tokens.push(Token {
                    kind,
                    start: at as u32,
                    end: end as u32,
                })?;
                comma_alone = ends_part(kind, first);
                in_cells = in_cells_behind(in_cells, kind, first);
                at = end;
            }
            Piece::Last(kind, end) => {
                tokens.push(Token {
                    kind,
                    start: at as u32,
                    end: end as u32,
                })?;
                return Ok(tokens);
            }
        }
    }
    Ok(tokens)
}

/// Whether a comma behind the token stands alone.
fn ends_part(kind: Kind, first: u8) -> bool
    ensures { result ≡ ends_part kind first }
{
    match kind {
        Kind::Text | Kind::Ref => true,
        Kind::Sign => first == b'>' || first == b']',
        Kind::Word | Kind::Number | Kind::Directive => false,
    }
}

/// Whether the place behind the token is between `<` and `>`.
fn in_cells_behind(in_cells: bool, kind: Kind, first: u8) -> bool
    ensures { result ≡ (if is_the_sign 60 kind first then true
        else (if is_the_sign 62 kind first then false else in_cells)) }
{
    match (kind, first) {
        (Kind::Sign, b'<') => true,
        (Kind::Sign, b'>') => false,
        _ => in_cells,
    }
}
