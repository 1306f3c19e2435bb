ghost use Rattle.std.specs.Prelude.{◌≡◌};
ghost use Rattle.dts_lex.specs.Bytes as bytes;

/// Space, tab, newline or carriage return.
#[tactic(auto, unfolding(crate::specs::Bytes::is_blank))]
pub(crate) fn is_blank(b: u8) -> bool
    ensures { result ≡ bytes.is_blank b }
{
    matches!(b, b' ' | b'\t' | b'\n' | b'\r')
}

/// A byte that a label may begin with.
#[tactic(auto, unfolding(crate::specs::Bytes::is_label_start))]
pub(crate) fn is_label_start(b: u8) -> bool
    ensures { result ≡ bytes.is_label_start b }
{
    b.is_ascii_alphabetic() || b == b'_'
}

/// A sign that is a token wherever it begins one; a comma is one only after some tokens.
#[tactic(auto, unfolding(crate::specs::Bytes::is_sign))]
pub(crate) fn is_sign(b: u8) -> bool
    ensures { result ≡ bytes.is_sign b }
{
    matches!(
        b,
        b'{' | b'}' | b';' | b'=' | b':' | b'<' | b'>' | b'[' | b']'
    )
}

/// A byte that stands for itself in a string: neither a quote nor a backslash.
#[tactic(auto, unfolding(crate::specs::Bytes::is_plain))]
pub(crate) fn is_plain(b: u8) -> bool
    ensures { result ≡ bytes.is_plain b }
{
    b' ' <= b && b <= b'~' && b != b'"' && b != b'\\'
}

/// What may follow a backslash in a string: `"`, `\`, `n` or `t`.
#[tactic(auto, unfolding(crate::specs::Bytes::is_escaped))]
pub(crate) fn is_escaped(b: u8) -> bool
    ensures { result ≡ bytes.is_escaped b }
{
    matches!(b, b'"' | b'\\' | b'n' | b't')
}
