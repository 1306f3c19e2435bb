use std::alloc::{AllocError, Global};

/// What the next byte of an escaped text is.
#[derive(Clone, Copy)]
enum State {
    Plain,
    /// It stands behind a backslash.
    Escape,
    /// It is the first of two hexadecimal digits.
    FirstDigit,
    /// It is the second; the first counts for this.
    SecondDigit(u8),
}

/// The bytes for which a text stands: `\n`, `\t` and `\r` are a newline, a tab and a carriage return, `\x` and
/// two hexadecimal digits the byte of this number, and a backslash and another byte is that byte.
pub(crate) fn unescaped(alloc: Global, text: &str) -> Result<Vec<u8>, AllocError> {
    let mut bytes = Vec::new(alloc);
    let mut state = State::Plain;
    for b in text.bytes() {
        state = push(&mut bytes, state, b)?;
    }
    Ok(bytes)
}

/// Appends what this byte ends, and answers what the next one is.
fn push(bytes: &mut Vec<u8>, state: State, b: u8) -> Result<State, AllocError> {
    match (state, b) {
        (State::Plain, b'\\') => return Ok(State::Escape),
        (State::Escape, b'x') => return Ok(State::FirstDigit),
        (State::FirstDigit, digit) => return Ok(State::SecondDigit(value_of(digit) << 4)),
        (State::Plain, byte) => bytes.push(byte)?,
        (State::Escape, letter) => bytes.push(meant_by(letter))?,
        (State::SecondDigit(first), digit) => bytes.push(first | value_of(digit))?,
    }
    Ok(State::Plain)
}

fn meant_by(letter: u8) -> u8 {
    match letter {
        b'n' => b'\n',
        b't' => b'\t',
        b'r' => b'\r',
        other => other,
    }
}

/// The value of a hexadecimal digit, and 0 of any other byte.
fn value_of(digit: u8) -> u8 {
    match digit {
        b'0'..=b'9' => digit - b'0',
        b'a'..=b'f' => digit - b'a' + 10,
        _ => 0,
    }
}
