ghost use Rattle.std.specs.Prelude.{◌≡◌, ◌<◌, ◌≤◌, ◌+◌, length, slice_range, true, IfOk};
ghost use Rattle.std.specs.List.{list_all};
ghost use Rattle.std.specs.Char.{digit_value, is_digit};
ghost use Rattle.dts_tree.specs.Lexeme as lexeme;

use std::alloc::{AllocError, Global};

/// The bytes from a place to before another, as far as the text has them.
pub(crate) fn slice_of(text: &[u8], start: u32, end: u32) -> &[u8]
    ensures { result.now ≡ slice_range text.now start end }
{
    let end = (end as usize).min(text.len());
    let start = (start as usize).min(end);
    &text[start..end]
}

/// A word without `@`.
#[tactic(auto, unfolding(crate::specs::Lexeme::may_name_property))]
pub(crate) fn may_name_property(word: &[u8]) -> bool
    ensures { result ≡ lexeme.may_name_property word.now }
{
    word.iter().all(|b| *b != b'@')
}

fn are_hex_digits(word: &[u8]) -> bool
    ensures { result ≡ list_all (λ b. is_digit b 16) word.now }
{
    word.iter().all(|b| (*b as char).is_digit(16))
}

/// Two hexadecimal digits for each byte.
#[tactic(auto, unfolding(crate::specs::Lexeme::is_bytes))]
pub(crate) fn is_bytes(word: &[u8]) -> bool
    ensures { result ≡ lexeme.is_bytes word.now }
{
    word.len() % 2 == 0 && are_hex_digits(word)
}

/// The bytes of a word of digits.
pub(crate) fn bytes_of(alloc: Global, word: &[u8]) -> Result<Vec<u8>, AllocError>
    requires { list_all (λ b. is_digit b 16) word.now ≡ true }
    ensures { IfOk result (λ v. v.items ≡ lexeme.bytes_of word.now) }
{
    let mut bytes = Vec::new(alloc);
    let mut at = 0;
    while at + 1 < word.len() {
        bytes.push(digit_of(word[at]) * 16 + digit_of(word[at + 1]))?;
        at += 2;
    }
    Ok(bytes)
}

/// The value of a hexadecimal digit.
fn digit_of(digit: u8) -> u8
    ensures small { result < 16 }
    ensures value { is_digit digit 16 ≡ true → result ≡ digit_value digit }
{
    match (digit as char).to_digit(16) {
        Some(value) => value as u8,
        None => 0,
    }
}

/// The bytes that the inside of a string stands for.
pub(crate) fn unescaped(alloc: Global, inside: &[u8]) -> Result<Vec<u8>, AllocError>
    ensures { IfOk result (λ v. v.items ≡ lexeme.unescaped inside.now) }
{
    let mut bytes = Vec::new(alloc);
    let mut at = 0;
    while at < inside.len() {
        let b = inside[at];
        if b == b'\\' && at + 1 < inside.len() {
            bytes.push(escaped(inside[at + 1]))?;
            at += 2;
        } else {
            bytes.push(b)?;
            at += 1;
        }
    }
    Ok(bytes)
}

#[tactic(auto, unfolding(crate::specs::Lexeme::escaped))]
fn escaped(b: u8) -> u8
    ensures { result ≡ lexeme.escaped b }
{
    match b {
        b'n' => b'\n',
        b't' => b'\t',
        _ => b,
    }
}
