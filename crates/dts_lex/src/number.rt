ghost use Rattle.std.specs.Prelude.{◌≡◌, ◌≤◌, ◌^◌, length, min, take};
ghost use Rattle.std.specs.List.{prefix_len};
ghost use Rattle.std.specs.Char.{is_digit};
ghost use Rattle.std.specs.Str.Parse.{digits_value};
ghost use Rattle.dts_lex.specs.Number as number;

/// Why a word is no number of 32 bits.
#[derive(Clone, Copy, Debug, PartialEq, Eq)]
pub enum NumberFault {
    /// The word is no decimal, hexadecimal or octal number with an optional suffix.
    Malformed,
    /// The number is above 4294967295.
    TooWide,
}

/// The number that a word spells: decimal, hexadecimal after `0x`, or octal after `0`, and then
/// perhaps U, L, UL, LL or ULL, which says nothing. `0x1FUL` is 31, `017` is 15, `08` is malformed.
#[tactic(auto, unfolding(crate::specs::Number::number_of))]
pub fn number_of(word: &[u8]) -> Result<u32, NumberFault>
    ensures { result ≡ number.number_of word.now }
{
    if word.starts_with(b"0x".as_slice()) {
        digits_and_suffix(16, &word[2..])
    } else if word.starts_with(b"0".as_slice()) {
        digits_and_suffix(8, word)
    } else {
        digits_and_suffix(10, word)
    }
}

#[tactic(auto, unfolding(crate::specs::Number::digits_and_suffix))]
fn digits_and_suffix(base: u32, bytes: &[u8]) -> Result<u32, NumberFault>
    requires low { 2 ≤ base }
    requires high { base ≤ 16 }
    ensures { result ≡ number.digits_and_suffix base bytes.now }
{
    let (count, value) = digits(base, bytes);
    if count == 0 || !is_suffix(&bytes[count..]) {
        return Err(NumberFault::Malformed);
    }
    if value > u64::from(u32::MAX) {
        return Err(NumberFault::TooWide);
    }
    Ok(value as u32)
}

/// How many digits the bytes begin with, and their number, where 2 ^ 32 stands for all from there on.
fn digits(base: u32, bytes: &[u8]) -> (usize, u64)
    requires low { 2 ≤ base }
    requires high { base ≤ 16 }
    ensures count { result.0 ≡ prefix_len (λ c. is_digit c base) bytes.now }
    ensures value { result.1 ≡ min (digits_value base (take result.0 bytes.now)) (2 ^ 32) }
{
    let mut count = 0;
    let mut value = 0;
    while count < bytes.len() {
        let Some(digit) = (bytes[count] as char).to_digit(base) else {
            return (count, value);
        };
        value = (value * u64::from(base) + u64::from(digit)).min(1 << 32);
        count += 1;
    }
    (count, value)
}

#[tactic(auto, unfolding(crate::specs::Number::is_suffix))]
fn is_suffix(bytes: &[u8]) -> bool
    ensures { result ≡ number.is_suffix bytes.now }
{
    let suffixes = [
        b"".as_slice(),
        b"U".as_slice(),
        b"L".as_slice(),
        b"UL".as_slice(),
        b"LL".as_slice(),
        b"ULL".as_slice(),
    ];
    suffixes.contains(&bytes)
}
