ghost use Rattle.std.specs.Prelude.{ℕ, ◌≡◌, ◌≢◌, ◌+◌, ◌^◌, ◌<◌, [], ◌∷◌, decimal, IfSome, IfNone, IsTrue, ◌↔◌};
ghost use Rattle.rows.specs.Words.{spaced, hex_digit, hex_text, IsPlain};

use crate::split::split_first;
use std::str;

/// Whether neither a sign nor a needless zero stands in front.
fn is_plain(word: &[u8]) -> bool
    ensures { IsTrue result ↔ IsPlain word.now }
{
    match word {
        [b'+', ..] | [b'0', _, ..] => false,
        _ => true,
    }
}

/// The number that this word is the decimal form of.
pub fn parse_number(word: &[u8]) -> Option<u32>
    ensures some { IfSome result (λ n. word.now ≡ decimal n) }
    ensures none { IfNone result ((n : ℕ) → n < 2 ^ 32 → word.now ≢ decimal n) }
{
    if !is_plain(word) {
        return None;
    }
    let text = str::from_utf8(word).ok()?;
    text.parse::<u32>().ok()
}

/// The same of a number of 64 bits.
pub(crate) fn parse_wide(word: &[u8]) -> Option<u64>
    ensures some { IfSome result (λ n. word.now ≡ decimal n) }
    ensures none { IfNone result ((n : ℕ) → n < 2 ^ 64 → word.now ≢ decimal n) }
{
    if !is_plain(word) {
        return None;
    }
    let text = str::from_utf8(word).ok()?;
    text.parse::<u64>().ok()
}

/// The same of a number of 16 bits.
pub(crate) fn parse_short(word: &[u8]) -> Option<u16>
    ensures some { IfSome result (λ n. word.now ≡ decimal n) }
    ensures none { IfNone result ((n : ℕ) → n < 2 ^ 16 → word.now ≢ decimal n) }
{
    let n = parse_number(word)?;
    if n > 65535 {
        return None;
    }
    Some(n as u16)
}

/// The same of a number of 8 bits.
pub(crate) fn parse_byte(word: &[u8]) -> Option<u8>
    ensures some { IfSome result (λ n. word.now ≡ decimal n) }
    ensures none { IfNone result ((n : ℕ) → n < 2 ^ 8 → word.now ≢ decimal n) }
{
    let n = parse_number(word)?;
    if n > 255 {
        return None;
    }
    Some(n as u8)
}

/// The number of this hexadecimal digit; a letter is a small one.
fn parse_hex_digit(byte: u8) -> Option<u8>
    ensures some { IfSome result (λ n. (n < 16) × (byte ≡ hex_digit n)) }
    ensures none { IfNone result ((n : ℕ) → n < 16 → byte ≢ hex_digit n) }
{
    match byte {
        b'0'..=b'9' => Some(byte - b'0'),
        b'a'..=b'f' => Some(byte - b'a' + 10),
        _ => None,
    }
}

/// The byte that is spelled as `0x` and these two digits.
pub fn parse_hex(word: &[u8]) -> Option<u8>
    ensures some { IfSome result (λ n. word.now ≡ hex_text n) }
    ensures none { IfNone result ((n : ℕ) → n < 16 ^ 2 → word.now ≢ hex_text n) }
{
    match word {
        [b'0', b'x', high, low] => {
            let high = parse_hex_digit(*high)?;
            let low = parse_hex_digit(*low)?;
            Some(16 * high + low)
        }
        _ => None,
    }
}

/// Two numbers with a space between them.
pub fn parse_number_pair(words: &[u8]) -> Option<(u32, u32)>
    ensures some { IfSome result (λ n. words.now ≡ spaced (decimal n.0 ∷ decimal n.1 ∷ [])) }
    ensures none { IfNone result ((m n : ℕ) → m < 2 ^ 32 → n < 2 ^ 32 → words.now ≢ spaced (decimal m ∷ decimal n ∷ [])) }
{
    let (first, second) = split_first(words, b' ')?;
    let first = parse_number(first)?;
    let second = parse_number(second)?;
    Some((first, second))
}

/// Two bytes in hexadecimal with a space between them.
pub fn parse_hex_pair(words: &[u8]) -> Option<(u8, u8)>
    ensures some { IfSome result (λ n. words.now ≡ spaced (hex_text n.0 ∷ hex_text n.1 ∷ [])) }
    ensures none { IfNone result ((m n : ℕ) → m < 16 ^ 2 → n < 16 ^ 2 → words.now ≢ spaced (hex_text m ∷ hex_text n ∷ [])) }
{
    let (first, second) = split_first(words, b' ')?;
    let first = parse_hex(first)?;
    let second = parse_hex(second)?;
    Some((first, second))
}
