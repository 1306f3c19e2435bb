ghost use Rattle.std.specs.Prelude.{ℕ, ◌≡◌, ◌≢◌, ◌+◌, ◌<◌, ◌≤◌, ◌++◌, ◌∷◌, [], List, length, IfSome, IfNone, ◌^◌, codes, decimal};
ghost use Rattle.board.specs.declared.rail_id.RailId.{RailId as TheRailId};
ghost use Rattle.board.specs.Valid.{IsValid};
ghost use Rattle.rows.specs.declared.call.Call.{Call as TheCall};
ghost use Rattle.rows.specs.CallText.{call_text};
ghost use Rattle.rows.specs.Reading.{IsCall, NameLacks};
ghost use Rattle.rows.specs.Row.{rail_name};
ghost use Rattle.rows.specs.Words.{spaced};
ghost use Rattle.rows.specs.RowLine.{arity, first_word, is_any, spaces, IsCallOn, IsHead};

use crate::call::Call;
use crate::call_reading::read_words;
use crate::call_text::rail_name;
use crate::numbers::{parse_number, parse_short};
use crate::split::{after_prefix, split_first};
use board::{Board, RailId};

/// The rail of this name.
pub(crate) fn rail_named(board: &Board, word: &[u8]) -> Option<RailId>
    requires { length board.now.rails ≤ 65535 }
    ensures some { IfSome result (λ id. (id.0 < length board.now.rails) × (rail_name board.now id ≡ word.now)) }
    ensures none { IfNone result ((id : TheRailId) → id.0 < length board.now.rails → rail_name board.now id ≢ word.now) }
{
    for at in 0..board.rails.len() {
        let id = RailId(at as u16);
        if rail_name(board, id).as_bytes() == word {
            return Some(id);
        }
    }
    None
}

/// Whether the word is one of these.
fn is_any(word: &[u8], one: &str, other: &str) -> bool
    ensures { result ≡ is_any word.now one.now other.now }
{
    word == one.as_bytes() || word == other.as_bytes()
}

/// Of how many words a call is, by its first word.
fn word_count(verb: &[u8]) -> usize
    ensures { result ≡ arity verb.now }
{
    if is_any(verb, "resume", "release-boot") {
        1
    } else if is_any(verb, "set", "supported") {
        4
    } else if is_any(verb, "open", "openx") || is_any(verb, "load", "list") {
        3
    } else {
        2
    }
}

/// What stands before the space that ends so many words, and what stands after it.
fn split_words(text: &[u8], count: usize) -> Option<(&[u8], &[u8])>
    requires { 0 < count }
    ensures parts { IfSome result (λ parts. text.now ≡ parts.0.now ++ 32 ∷ parts.1.now) }
    ensures count { IfSome result (λ parts. spaces parts.0.now + 1 ≡ count) }
    ensures none { IfNone result (spaces text.now < count) }
{
    let mut left = count;
    for (at, byte) in text.iter().enumerate() {
        if *byte == b' ' {
            left -= 1;
            if left == 0 {
                return Some((&text[..at], &text[at + 1..]));
            }
        }
    }
    None
}

/// The words of the call that the text begins with, and what stands behind them and a space.
fn split_call(text: &[u8]) -> Option<(&[u8], &[u8])>
    ensures parts { IfSome result (λ parts. text.now ≡ parts.0.now ++ 32 ∷ parts.1.now) }
    ensures count { IfSome result (λ parts. spaces parts.0.now + 1 ≡ arity (first_word text.now)) }
    ensures none { IfNone result (spaces text.now < arity (first_word text.now)) }
{
    let (verb, _) = split_first(text, b' ')?;
    split_words(text, word_count(verb))
}

/// The call of a line, whose rail is named as the board names it.
fn read_call(board: &Board, text: &[u8]) -> Option<Call>
    requires { IsValid board.now }
    ensures some { IfSome result (λ call. IsCallOn board.now call text.now) }
    ensures none { IfNone result ((call : TheCall) → ¬ IsCallOn board.now call text.now) }
{
    match read_words(text) {
        None => None,
        Some((call, word)) => match &call {
            Call::Open {
                handle,
                exclusive,
                ..
            } => {
                let rail = rail_named(board, word)?;
                Some(Call::Open {
                    handle: *handle,
                    rail,
                    exclusive: *exclusive,
                })
            }
            _ => Some(call.copy()),
        },
    }
}

/// The worker and the number of the line that a row begins with, and what stands behind them.
fn split_numbers(line: &[u8]) -> Option<(u16, u32, &[u8])>
    ensures some { IfSome result (λ n. line.now ≡ spaced (decimal n.0 ∷ decimal n.1 ∷ n.2.now ∷ [])) }
    ensures fits { IfSome result (λ n. (n.0 < 2 ^ 16) × (n.1 < 2 ^ 32)) }
    ensures none { IfNone result ((worker number : ℕ) (rest : List ℕ) → worker < 2 ^ 16 → number < 2 ^ 32 → line.now ≢ spaced (decimal worker ∷ decimal number ∷ rest ∷ [])) }
{
    let (first, others) = split_first(line, b' ')?;
    let (second, rest) = split_first(others, b' ')?;
    let worker = parse_short(first)?;
    let number = parse_number(second)?;
    Some((worker, number, rest))
}

/// The words of a call, and the answer behind an arrow.
fn split_answer(text: &[u8]) -> Option<(&[u8], &[u8])>
    ensures parts { IfSome result (λ parts. text.now ≡ spaced (parts.0.now ∷ codes "->" ∷ parts.1.now ∷ [])) }
    ensures count { IfSome result (λ parts. spaces parts.0.now + 1 ≡ arity (first_word text.now)) }
    ensures none { IfNone result ((name : TheRailId → List ℕ) (call : TheCall) (answer : List ℕ) → IsCall call → NameLacks 32 name call → text.now ≢ spaced (call_text name call ∷ codes "->" ∷ answer ∷ [])) }
{
    let (call, rest) = split_call(text)?;
    let answer = after_prefix(rest, b"-> ")?;
    Some((call, answer))
}

/// A row without its writes, whose answer isn't read yet.
#[derive(Clone, Copy)]
pub(crate) struct Head<'a> {
    pub(crate) worker: u16,
    pub(crate) number: u32,
    pub(crate) call: Call,
    pub(crate) answer: &'a [u8],
}

/// The parts of the line of a row.
pub(crate) fn read_head<'a>(board: &Board, line: &'a [u8]) -> Option<Head<'a>>
    requires { IsValid board.now }
    ensures some { IfSome result (λ head. IsHead board.now line.now head.worker head.number head.call head.answer.now) }
    ensures none { IfNone result ((worker number : ℕ) (call : TheCall) (answer : List ℕ) → ¬ IsHead board.now line.now worker number call answer) }
{
    let (worker, number, rest) = split_numbers(line)?;
    let (call, answer) = split_answer(rest)?;
    match read_call(board, call) {
        None => None,
        Some(call) => Some(Head {
            worker,
            number,
            call,
            answer,
        }),
    }
}
