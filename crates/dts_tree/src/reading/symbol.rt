ghost use Rattle.std.specs.Prelude.{◌≡◌, ◌≤◌, ◌<◌, length, slice_range};
ghost use Rattle.dts_tree.specs.Lexeme.{lexeme_of, sign_of};
ghost use Rattle.dts_tree.specs.Outline.{fault_of};
ghost use Rattle.dts_tree.specs.Inside.View.{symbol_of};
ghost use Rattle.dts_tree.specs.Inside.Inner.{inner_of};

use crate::fault::TreeFault;
use crate::reading::bytes::slice_of;
use dts_lex::{Kind, Token, is_last, number_of};

/// The class of a token, as far as the grammar asks for it.
#[derive(Clone, Copy)]
pub(crate) enum Symbol {
    /// `/dts-v1/`
    Version,
    /// `;`
    Semicolon,
    /// `:`
    Colon,
    /// `=`
    Equals,
    /// `,`
    Comma,
    /// `/`
    Slash,
    /// `{`
    Open,
    /// `}`
    Close,
    /// `<`
    Less,
    /// `>`
    Greater,
    /// `[`
    Left,
    /// `]`
    Right,
    Word,
    Number(u32),
    Text,
    Ref,
    /// What stands in no text.
    Foreign,
}

/// The class of a token of the text.
#[tactic(auto, unfolding(crate::specs::Lexeme::lexeme_of))]
pub(crate) fn symbol_of(text: &[u8], token: &Token) -> Symbol
    requires some { token.now.start < token.now.end }
    requires within { token.now.end ≤ length text.now }
    ensures { result ≡ symbol_of (lexeme_of text.now token.now) }
{
    if is_last(text, token) {
        return Symbol::Foreign;
    }
    let bytes = &text[token.start as usize..token.end as usize];
    match token.kind {
        Kind::Word => Symbol::Word,
        Kind::Number => Symbol::Number(number_of(bytes).unwrap_or(0)),
        Kind::Text => Symbol::Text,
        Kind::Directive => Symbol::Version,
        Kind::Ref => Symbol::Ref,
        Kind::Sign => sign_of(text[token.start as usize]),
    }
}

#[tactic(auto, unfolding(crate::specs::Lexeme::sign_of))]
fn sign_of(b: u8) -> Symbol
    ensures { result ≡ symbol_of (sign_of b) }
{
    if b == b';' {
        Symbol::Semicolon
    } else if b == b':' {
        Symbol::Colon
    } else if b == b'=' {
        Symbol::Equals
    } else if b == b',' {
        Symbol::Comma
    } else if b == b'/' {
        Symbol::Slash
    } else if b == b'{' {
        Symbol::Open
    } else if b == b'}' {
        Symbol::Close
    } else if b == b'<' {
        Symbol::Less
    } else if b == b'>' {
        Symbol::Greater
    } else if b == b'[' {
        Symbol::Left
    } else if b == b']' {
        Symbol::Right
    } else {
        Symbol::Foreign
    }
}

/// The bytes of a token: a reference without its ampersand, a string without its quotes.
pub(crate) fn inner_of<'a>(text: &'a [u8], token: &Token) -> &'a [u8]
    requires some { token.now.start < token.now.end }
    requires within { token.now.end ≤ length text.now }
    ensures { result.now ≡ inner_of text.now token.now }
{
    let (start, end) = (token.start, token.end);
    match token.kind {
        Kind::Ref => slice_of(text, start + 1, end),
        Kind::Text => slice_of(text, start + 1, end - 1),
        _ => slice_of(text, start, end),
    }
}

/// The fault of a token that can't come where it stands.
#[tactic(auto, unfolding(crate::specs::Outline::fault_of))]
pub(crate) fn fault_of(text: &[u8], token: &Token) -> TreeFault
    requires rises { token.now.start ≤ token.now.end }
    requires within { token.now.end ≤ length text.now }
    ensures { result ≡ fault_of text.now token.now }
{
    let (at, end) = (token.start, token.end);
    match token.kind {
        Kind::Directive => TreeFault::NotSupported { at, end },
        _ => {
            if is_last(text, token) {
                TreeFault::NotSupported { at, end }
            } else {
                TreeFault::Syntax(at)
            }
        }
    }
}
