ghost use Rattle.std.specs.Prelude.{ℕ, ◌≡◌, ◌≢◌, ◌≤◌, ◌∷◌, ◌++◌, [], List, All, length, decimal, flat_map, IfSome, IfNone, IfOk, IfErr};
ghost use Rattle.board.specs.declared.event.Event.{Event as TheEvent};
ghost use Rattle.rows.specs.AnswerText.{event_text, next_event_text};
ghost use Rattle.rows.specs.declared.row_fault.RowFault.TheVariants.{NotARow};
ghost use Rattle.rows.specs.Fits.{FitsEvent};
ghost use Rattle.rows.specs.Tails.{IsEvent, IsTail};

use crate::call_reading::text_of;
use crate::numbers::{parse_number, parse_number_pair};
use crate::row_fault::RowFault;
use crate::split::{after_prefix, split_first, take_until};
use board::Event;
use item_list::Items;
use std::alloc::Global;

/// The event of this one word.
fn switch_event(word: &[u8]) -> Option<Event>
    ensures some { IfSome result (λ event. IsEvent event (word.now ∷ [])) }
    ensures none { IfNone result ((event : TheEvent) → ¬ IsEvent event (word.now ∷ [])) }
{
    match text_of(word)? {
        "enable" => Some(Event::Enable),
        "pre-disable" => Some(Event::PreDisable),
        "disable" => Some(Event::Disable),
        "abort-disable" => Some(Event::AbortDisable),
        _ => None,
    }
}

/// The event of this word, by the values behind it.
fn voltage_event(word: &[u8], values: &[u8]) -> Option<Event>
    ensures some { IfSome result (λ event. IsEvent event (word.now ∷ values.now ∷ [])) }
    ensures none { IfNone result ((event : TheEvent) → ¬ IsEvent event (word.now ∷ values.now ∷ [])) }
{
    match text_of(word)? {
        "pre-voltage-change" => {
            let (old, new) = parse_number_pair(values)?;
            Some(Event::PreVoltageChange { old, new })
        }
        "voltage-change" => {
            let uv = parse_number(values)?;
            Some(Event::VoltageChange { uv })
        }
        "abort-voltage-change" => {
            let uv = parse_number(values)?;
            Some(Event::AbortVoltageChange { uv })
        }
        _ => None,
    }
}

/// The event of these words.
fn parse_event(words: &[u8]) -> Option<Event>
    ensures some { IfSome result (λ event. FitsEvent event × (words.now ≡ event_text event)) }
    ensures none { IfNone result ((event : TheEvent) → FitsEvent event → words.now ≢ event_text event) }
{
    match split_first(words, b' ') {
        None => switch_event(words),
        Some((word, values)) => voltage_event(word, values),
    }
}

/// The event behind a semicolon, and what stands behind it.
fn read_event(text: &[u8]) -> Option<(Event, &[u8])>
    ensures some { IfSome result (λ read. FitsEvent read.0 × (text.now ≡ next_event_text read.0 ++ read.1.now)) }
    ensures tail { IfSome result (λ read. IsTail 59 read.1.now) }
    ensures none { IfNone result ((event : TheEvent) (more : List ℕ) → FitsEvent event → IsTail 59 more → text.now ≢ next_event_text event ++ more) }
{
    let words = after_prefix(text, b"; ")?;
    let (words, rest) = take_until(words, b';');
    let event = parse_event(words)?;
    Some((event, rest))
}

/// The events of this list.
fn read_list(alloc: Global, text: &[u8]) -> Result<Items<Event>, RowFault>
    ensures fits { IfOk result (All FitsEvent) }
    ensures lines { IfOk result (λ list. text.now ≡ flat_map next_event_text list) }
    ensures none { IfErr result (λ fault. fault ≡ NotARow → (list : List TheEvent) → All FitsEvent list → text.now ≢ flat_map next_event_text list) }
{
    let mut list = Items::new(alloc);
    let mut left = text;
    'events: while !left.is_empty() {
        let Some((event, rest)) = read_event(left) else {
            return Err(RowFault::NotARow);
        };
        list.push(event)?;
        left = rest;
    }
    Ok(list)
}

/// The events behind their number.
pub(crate) fn read_events(alloc: Global, words: &[u8]) -> Result<Items<Event>, RowFault>
    ensures fits { IfOk result (λ list. All FitsEvent list × (length list ≤ 64)) }
    ensures lines { IfOk result (λ list. words.now ≡ decimal (length list) ++ flat_map next_event_text list) }
    ensures none { IfErr result (λ fault. fault ≡ NotARow → (list : List TheEvent) → All FitsEvent list → length list ≤ 64 → words.now ≢ decimal (length list) ++ flat_map next_event_text list) }
{
    let (count, text) = take_until(words, b';');
    let Some(count) = parse_number(count) else {
        return Err(RowFault::NotARow);
    };
    if count > 64 {
        return Err(RowFault::NotARow);
    }
    let list = match read_list(alloc, text) {
        Ok(list) => list,
        Err(fault) => return Err(fault),
    };
    if list.len() != count as usize {
        return Err(RowFault::NotARow);
    }
    Ok(list)
}
