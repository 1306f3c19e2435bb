ghost use Rattle.std.specs.Prelude.{ℕ, ◌≡◌, ◌≢◌, List, [], ◌∷◌, All, codes, IfSome, IfNone};
ghost use Rattle.board.specs.declared.state.State.{State as TheState};
ghost use Rattle.rows.specs.declared.call.Call.{Call as TheCall};
ghost use Rattle.rows.specs.Names.{IsHandleName};
ghost use Rattle.rows.specs.Reading.{NoCall, OpensAt, Spells, SpellsLine, SpellsWords};
ghost use Rattle.rows.specs.Words.{state_text, IsAsciiWord};

use crate::call::Call;
use crate::handles::parse_handle;
use crate::numbers::parse_number;
use crate::split::split_first;
use board::{Handle, RailId, State};
use std::str;

/// The text of a word of which each byte is ASCII.
pub(crate) fn text_of(word: &[u8]) -> Option<&str>
    ensures some { IfSome result (λ text. text.now ≡ word.now) }
    ensures none { IfNone result (¬ IsAsciiWord word.now) }
{
    match str::from_utf8(word) {
        Ok(text) => Some(text),
        Err(_) => None,
    }
}

/// How a board is suspended, by its word.
fn parse_state(word: &[u8]) -> Option<State>
    ensures some { IfSome result (λ state. word.now ≡ state_text state) }
    ensures none { IfNone result ((state : TheState) → word.now ≢ state_text state) }
{
    match text_of(word)? {
        "standby" => Some(State::Standby),
        "mem" => Some(State::Mem),
        "disk" => Some(State::Disk),
        _ => None,
    }
}

/// The call of this one word.
fn bare_call(verb: &[u8]) -> Option<Call>
    ensures some { IfSome result (λ call. SpellsWords [] call (verb.now ∷ [])) }
    ensures none { IfNone result (NoCall (verb.now ∷ [])) }
{
    match text_of(verb)? {
        "resume" => Some(Call::Resume),
        "release-boot" => Some(Call::ReleaseBoot),
        _ => None,
    }
}

/// The call of a handle and nothing else.
fn handle_call(verb: &str, handle: Handle) -> Option<Call>
    requires name { IsHandleName handle.bytes }
    requires other { verb.now ≢ codes "suspend" }
    ensures some { IfSome result (λ call. SpellsWords [] call (verb.now ∷ handle.bytes ∷ [])) }
    ensures none { IfNone result (NoCall (verb.now ∷ handle.bytes ∷ [])) }
{
    match verb {
        "close" => Some(Call::Close { handle }),
        "enable" => Some(Call::Enable { handle }),
        "disable" => Some(Call::Disable { handle }),
        "get" => Some(Call::Get { handle }),
        "ison" => Some(Call::IsOn { handle }),
        "mode" => Some(Call::ModeOf { handle }),
        "listen" => Some(Call::Listen { handle }),
        "events" => Some(Call::Events { handle }),
        _ => None,
    }
}

/// The call of these two words.
fn short_call(verb: &[u8], name: &[u8]) -> Option<Call>
    ensures some { IfSome result (λ call. SpellsWords [] call (verb.now ∷ name.now ∷ [])) }
    ensures none { IfNone result (NoCall (verb.now ∷ name.now ∷ [])) }
{
    let verb = text_of(verb)?;
    if verb == "suspend" {
        let state = parse_state(name)?;
        return Some(Call::Suspend { state });
    }
    let handle = parse_handle(name)?;
    handle_call(verb, handle)
}

/// The call of a handle and a number.
fn number_call(verb: &str, handle: Handle, operand: &[u8]) -> Option<Call>
    requires { IsHandleName handle.bytes }
    ensures some { IfSome result (λ call. SpellsWords [] call (verb.now ∷ handle.bytes ∷ operand.now ∷ [])) }
    ensures none { IfNone result (verb.now ≢ codes "open" → verb.now ≢ codes "openx" → NoCall (verb.now ∷ handle.bytes ∷ operand.now ∷ [])) }
{
    match verb {
        "load" => {
            let ua = parse_number(operand)?;
            Some(Call::Load { handle, ua })
        }
        "list" => {
            let sel = parse_number(operand)?;
            Some(Call::ListSel { handle, sel })
        }
        _ => None,
    }
}

/// The call of these three words, and the word that names a rail.
fn middle_call<'a>(verb: &[u8], name: &[u8], operand: &'a [u8]) -> Option<(Call, &'a [u8])>
    requires { All (λ byte. byte ≢ 32) operand.now }
    ensures some { IfSome result (λ read. SpellsWords read.1.now read.0 (verb.now ∷ name.now ∷ operand.now ∷ []) × OpensAt 0 read.0) }
    ensures none { IfNone result (NoCall (verb.now ∷ name.now ∷ operand.now ∷ [])) }
{
    let handle = parse_handle(name)?;
    let verb = text_of(verb)?;
    let exclusive = verb == "openx";
    if exclusive || verb == "open" {
        let rail = RailId(0);
        let call = Call::Open {
            handle,
            rail,
            exclusive,
        };
        return Some((call, operand));
    }
    let call = number_call(verb, handle, operand)?;
    Some((call, b""))
}

/// The call of these four words.
fn long_call(verb: &[u8], name: &[u8], low: &[u8], high: &[u8]) -> Option<Call>
    ensures some { IfSome result (λ call. SpellsWords [] call (verb.now ∷ name.now ∷ low.now ∷ high.now ∷ [])) }
    ensures none { IfNone result (NoCall (verb.now ∷ name.now ∷ low.now ∷ high.now ∷ [])) }
{
    let handle = parse_handle(name)?;
    let lo = parse_number(low)?;
    let hi = parse_number(high)?;
    match text_of(verb)? {
        "set" => Some(Call::Set { handle, lo, hi }),
        "supported" => Some(Call::Supported { handle, lo, hi }),
        _ => None,
    }
}

/// The call of a line, with rail 0 where a handle is opened, and the word, which may be empty, that
/// names the rail then.
pub(crate) fn read_words(line: &[u8]) -> Option<(Call, &[u8])>
    ensures some { IfSome result (λ read. SpellsLine read.1.now read.0 line.now × OpensAt 0 read.0) }
    ensures none { IfNone result ((word : List ℕ) (call : TheCall) → ¬ SpellsLine word call line.now) }
{
    let Some((verb, rest)) = split_first(line, b' ') else {
        let call = bare_call(line)?;
        return Some((call, b""));
    };
    let Some((name, rest)) = split_first(rest, b' ') else {
        let call = short_call(verb, rest)?;
        return Some((call, b""));
    };
    match split_first(rest, b' ') {
        None => middle_call(verb, name, rest),
        Some((low, high)) => {
            let call = long_call(verb, name, low, high)?;
            Some((call, b""))
        }
    }
}

/// The call of a call line, with rail 0 where a handle is opened, and the word that names the rail
/// then; the word is empty for a call that names no rail.
pub fn parse_call(line: &[u8]) -> Option<(Call, &[u8])>
    ensures some { IfSome result (λ read. Spells read.1.now read.0 line.now × OpensAt 0 read.0) }
    ensures none { IfNone result ((word : List ℕ) (call : TheCall) → ¬ Spells word call line.now) }
{
    match read_words(line) {
        None => None,
        Some((call, word)) => {
            if call.opens() && word.is_empty() {
                return None;
            }
            Some((call, word))
        }
    }
}
