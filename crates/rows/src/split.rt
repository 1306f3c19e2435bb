ghost use Rattle.std.specs.Prelude.{ℕ, ◌≡◌, ◌≢◌, List, ◌∷◌, ◌++◌, All, IfSome, IfNone};
ghost use Rattle.rows.specs.Tails.{IsTail};

/// What stands before the first of these separators, and what stands after it.
pub fn split_first(text: &[u8], separator: u8) -> Option<(&[u8], &[u8])>
    ensures parts { IfSome result (λ parts. text.now ≡ parts.0.now ++ separator ∷ parts.1.now) }
    ensures first { IfSome result (λ parts. All (λ byte. byte ≢ separator) parts.0.now) }
    ensures none { IfNone result (All (λ byte. byte ≢ separator) text.now) }
{
    let at = text.iter().position(|byte| *byte == separator)?;
    Some((&text[..at], &text[at + 1..]))
}

/// What stands after this prefix.
pub fn after_prefix<'a>(text: &'a [u8], prefix: &[u8]) -> Option<&'a [u8]>
    ensures some { IfSome result (λ rest. text.now ≡ prefix.now ++ rest.now) }
    ensures none { IfNone result ((rest : List ℕ) → text.now ≢ prefix.now ++ rest) }
{
    text.strip_prefix(prefix)
}

/// What stands before this suffix.
pub fn before_suffix<'a>(text: &'a [u8], suffix: &[u8]) -> Option<&'a [u8]>
    ensures some { IfSome result (λ rest. text.now ≡ rest.now ++ suffix.now) }
    ensures none { IfNone result ((rest : List ℕ) → text.now ≢ rest ++ suffix.now) }
{
    text.strip_suffix(suffix)
}

/// What stands before the first of these separators, and the rest from there on, which is empty
/// where there is none.
pub(crate) fn take_until(text: &[u8], separator: u8) -> (&[u8], &[u8])
    ensures parts { text.now ≡ result.0.now ++ result.1.now }
    ensures first { All (λ byte. byte ≢ separator) result.0.now }
    ensures tail { IsTail separator result.1.now }
{
    match split_first(text, separator) {
        None => (text, b""),
        Some((first, _)) => text.split_at(first.len()),
    }
}
