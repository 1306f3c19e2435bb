ghost use Rattle.std.specs.Prelude.{◌≡◌, ◌<◌, ◌++◌, ◌∷◌, [], codes, length, All, IfOk, OnOk, string_bytes};
ghost use Rattle.rows.specs.Words.{spaced};
ghost use Rattle.rows.specs.Row.{rail_name, HasRails};
ghost use Rattle.rows.specs.AnswerText.{event_text, next_event_text, events_text, now_text, answer_text};

use crate::answer::Answer;
use crate::call_text::rail_name;
use crate::words::{hex_text, mode_text, on_text, yes_text};
use board::{Board, Event, RailId};
use std::alloc::{AllocError, Global};

/// What a rail did, in words.
fn event_text(alloc: Global, event: Event) -> Result<String, AllocError>
    ensures { IfOk result (λ text. string_bytes text ≡ event_text event) }
{
    match event {
        Event::PreVoltageChange { old, new } => format!(in alloc; "pre-voltage-change {old} {new}"),
        Event::VoltageChange { uv } => format!(in alloc; "voltage-change {uv}"),
        Event::AbortVoltageChange { uv } => format!(in alloc; "abort-voltage-change {uv}"),
        Event::Enable => format!(in alloc; "enable"),
        Event::PreDisable => format!(in alloc; "pre-disable"),
        Event::Disable => format!(in alloc; "disable"),
        Event::AbortDisable => format!(in alloc; "abort-disable"),
    }
}

/// What a call is answered, in one word.
fn ok_text(alloc: Global, word: &str) -> Result<String, AllocError>
    ensures { IfOk result (λ text. string_bytes text ≡ spaced (codes "ok" ∷ word.now ∷ [])) }
{
    format!(in alloc; "ok {word}")
}

/// An event, behind a semicolon.
fn push_event(alloc: Global, text: &mut String, event: Event) -> Result<(), AllocError>
    ensures { OnOk result (string_bytes text.new ≡ string_bytes text.old ++ next_event_text event) }
{
    let word = event_text(alloc, event)?;
    let more = format!(in alloc; "; {word}")?;
    text.push_str(more.as_str())
}

/// How many events there are, and each of them.
fn events_text(alloc: Global, list: &[Event]) -> Result<String, AllocError>
    ensures { IfOk result (λ text. string_bytes text ≡ events_text list.now) }
{
    let count = list.len();
    let mut text = format!(in alloc; "ok {count}")?;
    for event in list {
        push_event(alloc, &mut text, *event)?;
    }
    Ok(text)
}

/// A rail that changed, with its value, behind a space.
fn push_now(
    alloc: Global,
    text: &mut String,
    board: &Board,
    id: RailId,
    uv: u32,
) -> Result<(), AllocError>
    requires { id.0 < length board.now.rails }
    ensures { OnOk result (string_bytes text.new ≡ string_bytes text.old ++ now_text (rail_name board.now) (id, uv)) }
{
    let name = rail_name(board, id);
    let more = format!(in alloc; " {name} {uv}")?;
    text.push_str(more.as_str())
}

/// The text of a fault: the refused register, the updates that were taken, and the rails that changed.
fn fault_text(
    alloc: Global,
    board: &Board,
    chip: u8,
    reg: u8,
    applied: u32,
    now: &[(RailId, u32)],
) -> Result<String, AllocError>
    requires { All (λ rail. rail.0.0 < length board.now.rails) now.now }
    ensures { IfOk result (λ text. string_bytes text ≡ answer_text (rail_name board.now) (Answer.Fault chip reg applied now.now)) }
{
    let reg = hex_text(alloc, reg)?;
    let mut text = format!(in alloc; "fault {chip} {reg} {applied}")?;
    for (id, uv) in now {
        push_now(alloc, &mut text, board, *id, *uv)?;
    }
    Ok(text)
}

/// The text of an answer.
pub(crate) fn answer_text(
    alloc: Global,
    board: &Board,
    answer: &Answer,
) -> Result<String, AllocError>
    requires { HasRails board.now answer.now }
    ensures { IfOk result (λ text. string_bytes text ≡ answer_text (rail_name board.now) answer.now) }
{
    match answer {
        Answer::Ok => format!(in alloc; "ok"),
        Answer::OkTime { delay } => format!(in alloc; "ok {delay}"),
        Answer::OkSet { uv, delay } => format!(in alloc; "ok {uv} {delay}"),
        Answer::OkMode { mode } => ok_text(alloc, mode_text(*mode)),
        Answer::OkUv { uv } => format!(in alloc; "ok {uv}"),
        Answer::OkOn { on } => ok_text(alloc, on_text(*on)),
        Answer::OkList { uv: Some(uv) } => format!(in alloc; "ok {uv}"),
        Answer::OkList { uv: None } => format!(in alloc; "ok none"),
        Answer::OkYes { yes } => ok_text(alloc, yes_text(*yes)),
        Answer::OkEvents { list } => events_text(alloc, list.as_slice()),
        Answer::BadRange { lo, hi } => format!(in alloc; "badrange {lo} {hi}"),
        Answer::NoValue => format!(in alloc; "novalue"),
        Answer::Unbalanced { enables } => format!(in alloc; "unbalanced {enables}"),
        Answer::CountFull { enables } => format!(in alloc; "countfull {enables}"),
        Answer::StillEnabled { enables } => format!(in alloc; "stillenabled {enables}"),
        Answer::Taken { handles } => format!(in alloc; "taken {handles}"),
        Answer::HandleOpen => format!(in alloc; "handleopen"),
        Answer::HandlesFull { handles } => format!(in alloc; "handlesfull {handles}"),
        Answer::NoHandle => format!(in alloc; "nohandle"),
        Answer::NotAllowed => format!(in alloc; "notallowed"),
        Answer::NoMode { sum } => format!(in alloc; "nomode {sum}"),
        Answer::NotListening => format!(in alloc; "notlistening"),
        Answer::Suspended => format!(in alloc; "suspended"),
        Answer::NotSuspended => format!(in alloc; "notsuspended"),
        Answer::Fault {
            chip,
            reg,
            applied,
            now,
        } => fault_text(alloc, board, *chip, *reg, *applied, now.as_slice()),
    }
}
