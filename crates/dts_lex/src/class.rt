ghost use Rattle.std.specs.Prelude.{◌≡◌};
ghost use Rattle.std.specs.List.{list_all};
ghost use Rattle.dts_lex.specs.Class.{has, is_label};
ghost use Rattle.dts_lex.specs.declared.class.Class.TheVariants.{Label};

use crate::bytes::is_label_start;

/// The bytes that go on in a row.
#[derive(Clone, Copy)]
pub(crate) enum Class {
    /// Letters, digits and `, . _ + - ? # @`.
    Word,
    /// Letters, digits and `_`.
    Label,
    /// Letters, digits and `-`.
    Directive,
    /// All but a newline.
    Line,
}

impl Class {
    #[tactic(auto, unfolding(crate::specs::Class::has))]
    pub(crate) fn has(self, b: u8) -> bool
        ensures { result ≡ has self b }
    {
        match self {
            Class::Word => {
                b.is_ascii_alphanumeric()
                    || matches!(b, b',' | b'.' | b'_' | b'+' | b'-' | b'?' | b'#' | b'@')
            }
            Class::Label => b.is_ascii_alphanumeric() || b == b'_',
            Class::Directive => b.is_ascii_alphanumeric() || b == b'-',
            Class::Line => b != b'\n',
        }
    }
}

/// A letter or `_`, and then letters, digits and `_`.
#[tactic(auto, unfolding(crate::specs::Class::is_label, crate::specs::Bytes::is_label_start))]
pub fn is_label(bytes: &[u8]) -> bool
    ensures { result ≡ is_label bytes.now }
{
    !bytes.is_empty() && is_label_start(bytes[0]) && are_label_bytes(bytes)
}

fn are_label_bytes(bytes: &[u8]) -> bool
    ensures { result ≡ list_all (has Label) bytes.now }
{
    bytes.iter().all(|b| Class::Label.has(*b))
}
