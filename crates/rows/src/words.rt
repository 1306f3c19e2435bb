ghost use Rattle.std.specs.Prelude.{◌≡◌, ◌<◌, IfOk, string_bytes};
ghost use Rattle.rows.specs.Words.{hex_digit, hex_text, mode_text, state_text, on_text, yes_text};

use board::State;
use load_modes::Mode;
use std::alloc::{AllocError, Global};

/// A mode, in a word.
pub fn mode_text(mode: Mode) -> &'static str
    ensures { result.now ≡ mode_text mode }
{
    match mode {
        Mode::Fast => "fast",
        Mode::Normal => "normal",
        Mode::Idle => "idle",
        Mode::Standby => "standby",
    }
}

/// How a board is suspended, in a word.
pub(crate) fn state_text(state: State) -> &'static str
    ensures { result.now ≡ state_text state }
{
    match state {
        State::Standby => "standby",
        State::Mem => "mem",
        State::Disk => "disk",
    }
}

/// Whether a rail is on, in a word.
pub fn on_text(on: bool) -> &'static str
    ensures { result.now ≡ on_text on }
{
    if on { "on" } else { "off" }
}

/// An answer to a question.
pub(crate) fn yes_text(yes: bool) -> &'static str
    ensures { result.now ≡ yes_text yes }
{
    if yes { "yes" } else { "no" }
}

/// A digit of a hexadecimal number.
fn hex_digit(n: u8) -> char
    requires { n < 16 }
    ensures { result ≡ hex_digit n }
{
    if n < 10 {
        char::from(b'0' + n)
    } else {
        char::from(b'a' + (n - 10))
    }
}

/// A byte in hexadecimal.
pub fn hex_text(alloc: Global, byte: u8) -> Result<String, AllocError>
    ensures { IfOk result (λ text. string_bytes text ≡ hex_text byte) }
{
    let high = hex_digit(byte / 16);
    let low = hex_digit(byte % 16);
    format!(in alloc; "0x{high}{low}")
}
