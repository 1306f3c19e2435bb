ghost use Rattle.std.specs.Prelude.{ℕ, Bool, ◌≡◌, ◌≢◌, ◌^◌, ◌<◌, Option as TheOption, IsTrue, ◌↔◌, [], ◌∷◌, codes, decimal, IfSome, IfNone, IfOk, IfErr};
ghost use Rattle.board.specs.declared.board.Board.{Board as TheBoard};
ghost use Rattle.board.specs.Valid.{IsValid};
ghost use Rattle.load_modes.specs.declared.mode.Mode.{Mode as TheMode};
ghost use Rattle.rows.specs.declared.answer.Answer.{Answer as TheAnswer};
ghost use Rattle.rows.specs.declared.row_fault.RowFault.TheVariants.{NotARow};
ghost use Rattle.rows.specs.AnswerParts.{or_no_row, IsAnswer, NoAnswer};
ghost use Rattle.rows.specs.AnswerText.{answer_text, listed_text};
ghost use Rattle.rows.specs.Fits.{told, FitsTold, Nothing, TheEvents};
ghost use Rattle.rows.specs.Row.{rail_name};
ghost use Rattle.rows.specs.Words.{spaced, mode_text, on_text, yes_text};

use crate::answer::Answer;
use crate::call::Call;
use crate::call_reading::text_of;
use crate::event_reading::read_events;
use crate::fault_reading::read_fault;
use crate::numbers::{parse_number, parse_number_pair, parse_wide};
use crate::row_fault::RowFault;
use crate::split::split_first;
use board::Board;
use load_modes::Mode;
use std::alloc::Global;

/// The mode of this word.
fn parse_mode(word: &[u8]) -> Option<Mode>
    ensures some { IfSome result (λ mode. word.now ≡ mode_text mode) }
    ensures none { IfNone result ((mode : TheMode) → word.now ≢ mode_text mode) }
{
    match text_of(word)? {
        "fast" => Some(Mode::Fast),
        "normal" => Some(Mode::Normal),
        "idle" => Some(Mode::Idle),
        "standby" => Some(Mode::Standby),
        _ => None,
    }
}

/// Whether a rail is on, by its word.
fn parse_on(word: &[u8]) -> Option<bool>
    ensures some { IfSome result (λ on. word.now ≡ on_text on) }
    ensures none { IfNone result ((on : Bool) → word.now ≢ on_text on) }
{
    match text_of(word)? {
        "on" => Some(true),
        "off" => Some(false),
        _ => None,
    }
}

/// The answer to a question.
fn parse_yes(word: &[u8]) -> Option<bool>
    ensures some { IfSome result (λ yes. word.now ≡ yes_text yes) }
    ensures none { IfNone result ((is : Bool) → word.now ≢ yes_text is) }
{
    match text_of(word)? {
        "yes" => Some(true),
        "no" => Some(false),
        _ => None,
    }
}

/// A value, or that there is none.
fn parse_listed(word: &[u8]) -> Option<Option<u32>>
    ensures some { IfSome result (λ uv. word.now ≡ listed_text uv) }
    ensures fits { IfSome result (λ uv. IfSome uv (λ n. n < 2 ^ 32)) }
    ensures none { IfNone result ((uv : TheOption ℕ) → IfSome uv (λ n. n < 2 ^ 32) → word.now ≢ listed_text uv) }
{
    if word == b"none".as_slice() {
        return Some(None);
    }
    let uv = parse_number(word)?;
    Some(Some(uv))
}

/// A value and a delay.
fn parse_set(words: &[u8]) -> Option<(u32, u64)>
    ensures some { IfSome result (λ n. words.now ≡ spaced (decimal n.0 ∷ decimal n.1 ∷ [])) }
    ensures fits { IfSome result (λ n. (n.0 < 2 ^ 32) × (n.1 < 2 ^ 64)) }
    ensures none { IfNone result ((uv delay : ℕ) → uv < 2 ^ 32 → delay < 2 ^ 64 → words.now ≢ spaced (decimal uv ∷ decimal delay ∷ [])) }
{
    let (first, second) = split_first(words, b' ')?;
    let uv = parse_number(first)?;
    let delay = parse_wide(second)?;
    Some((uv, delay))
}

/// Whether the call is told nothing when it is done.
fn is_quiet(call: &Call) -> bool
    ensures { IsTrue result ↔ (told call.now ≡ Nothing) }
{
    match call {
        Call::Open { .. }
        | Call::Close { .. }
        | Call::Disable { .. }
        | Call::Listen { .. }
        | Call::Suspend { .. }
        | Call::Resume
        | Call::ReleaseBoot => true,
        _ => false,
    }
}

/// The answer of this one word.
fn bare_answer(call: &Call, word: &[u8]) -> Option<Answer>
    ensures some { IfSome result (λ answer. (board : TheBoard) → IsAnswer board (told call.now) answer (word.now ∷ [])) }
    ensures none { IfNone result (NoAnswer (told call.now) (word.now ∷ [])) }
{
    let text = text_of(word)?;
    if text == "ok" && is_quiet(call) {
        return Some(Answer::Ok);
    }
    match text {
        "novalue" => Some(Answer::NoValue),
        "handleopen" => Some(Answer::HandleOpen),
        "nohandle" => Some(Answer::NoHandle),
        "notallowed" => Some(Answer::NotAllowed),
        "notlistening" => Some(Answer::NotListening),
        "suspended" => Some(Answer::Suspended),
        "notsuspended" => Some(Answer::NotSuspended),
        _ => None,
    }
}

/// The answer to a call that was done, by what stands behind `ok`.
fn done_answer(call: &Call, words: &[u8]) -> Option<Answer>
    ensures some { IfSome result (λ answer. (board : TheBoard) → IsAnswer board (told call.now) answer (codes "ok" ∷ words.now ∷ [])) }
    ensures none { IfNone result (told call.now ≢ TheEvents → NoAnswer (told call.now) (codes "ok" ∷ words.now ∷ [])) }
{
    match call {
        Call::Enable { .. } => {
            let delay = parse_wide(words)?;
            Some(Answer::OkTime { delay })
        }
        Call::Set { .. } => {
            let (uv, delay) = parse_set(words)?;
            Some(Answer::OkSet { uv, delay })
        }
        Call::Load { .. } | Call::ModeOf { .. } => {
            let mode = parse_mode(words)?;
            Some(Answer::OkMode { mode })
        }
        Call::Get { .. } => {
            let uv = parse_number(words)?;
            Some(Answer::OkUv { uv })
        }
        Call::IsOn { .. } => {
            let on = parse_on(words)?;
            Some(Answer::OkOn { on })
        }
        Call::ListSel { .. } => {
            let uv = parse_listed(words)?;
            Some(Answer::OkList { uv })
        }
        Call::Supported { .. } => {
            let yes = parse_yes(words)?;
            Some(Answer::OkYes { yes })
        }
        _ => None,
    }
}

/// This number, where the word is its decimal form.
fn parse_fixed(word: &[u8], wanted: u32) -> Option<u32>
    ensures some { IfSome result (λ n. (n ≡ wanted) × (word.now ≡ decimal n)) }
    ensures none { IfNone result (word.now ≢ decimal wanted) }
{
    let n = parse_number(word)?;
    if n == wanted { Some(n) } else { None }
}

/// The refusal of this word, by the numbers behind it.
fn numbered_refusal(call: &Call, verb: &str, words: &[u8]) -> Option<Answer>
    ensures some { IfSome result (λ answer. (board : TheBoard) → IsAnswer board (told call.now) answer (verb.now ∷ words.now ∷ [])) }
    ensures none { IfNone result (verb.now ≢ codes "ok" → verb.now ≢ codes "fault" → NoAnswer (told call.now) (verb.now ∷ words.now ∷ [])) }
{
    match verb {
        "badrange" => {
            let (lo, hi) = parse_number_pair(words)?;
            Some(Answer::BadRange { lo, hi })
        }
        "unbalanced" => {
            let enables = parse_fixed(words, 0)?;
            Some(Answer::Unbalanced { enables })
        }
        "countfull" => {
            let enables = parse_fixed(words, 65535)?;
            Some(Answer::CountFull { enables })
        }
        "stillenabled" => {
            let enables = parse_number(words)?;
            Some(Answer::StillEnabled { enables })
        }
        "taken" => {
            let handles = parse_number(words)?;
            Some(Answer::Taken { handles })
        }
        "handlesfull" => {
            let handles = parse_fixed(words, 64)?;
            Some(Answer::HandlesFull { handles })
        }
        "nomode" => {
            let sum = parse_wide(words)?;
            Some(Answer::NoMode { sum })
        }
        _ => None,
    }
}

/// What is read, or that it is no row.
fn found(answer: Option<Answer>) -> Result<Answer, RowFault>
    ensures { result ≡ or_no_row answer }
{
    match answer {
        Some(answer) => Ok(answer),
        None => Err(RowFault::NotARow),
    }
}

/// The answer to a call that was done, by what stands behind `ok`.
fn ok_answer(alloc: Global, call: &Call, words: &[u8]) -> Result<Answer, RowFault>
    ensures ok { IfOk result (λ answer. (board : TheBoard) → IsAnswer board (told call.now) answer (codes "ok" ∷ words.now ∷ [])) }
    ensures none { IfErr result (λ fault. fault ≡ NotARow → NoAnswer (told call.now) (codes "ok" ∷ words.now ∷ [])) }
{
    match call {
        Call::Events { .. } => match read_events(alloc, words) {
            Ok(list) => Ok(Answer::OkEvents { list }),
            Err(fault) => Err(fault),
        },
        _ => found(done_answer(call, words)),
    }
}

/// The answer to a call, by its first word and what stands behind it.
fn worded_answer(
    alloc: Global,
    board: &Board,
    call: &Call,
    word: &[u8],
    words: &[u8],
) -> Result<Answer, RowFault>
    requires { IsValid board.now }
    ensures ok { IfOk result (λ answer. IsAnswer board.now (told call.now) answer (word.now ∷ words.now ∷ [])) }
    ensures none { IfErr result (λ fault. fault ≡ NotARow → (answer : TheAnswer) → ¬ IsAnswer board.now (told call.now) answer (word.now ∷ words.now ∷ [])) }
{
    let Some(verb) = text_of(word) else {
        return Err(RowFault::NotARow);
    };
    match verb {
        "ok" => ok_answer(alloc, call, words),
        "fault" => read_fault(alloc, board, words),
        _ => found(numbered_refusal(call, verb, words)),
    }
}

/// The answer to a call.
pub(crate) fn read_answer(
    alloc: Global,
    board: &Board,
    call: &Call,
    text: &[u8],
) -> Result<Answer, RowFault>
    requires { IsValid board.now }
    ensures ok { IfOk result (λ answer. FitsTold board.now (told call.now) answer × (text.now ≡ answer_text (rail_name board.now) answer)) }
    ensures none { IfErr result (λ fault. fault ≡ NotARow → (answer : TheAnswer) → FitsTold board.now (told call.now) answer → text.now ≢ answer_text (rail_name board.now) answer) }
{
    match split_first(text, b' ') {
        None => found(bare_answer(call, text)),
        Some((word, words)) => worded_answer(alloc, board, call, word, words),
    }
}
