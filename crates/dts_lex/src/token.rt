/// What a token is.
#[derive(Clone, Copy)]
pub enum Kind {
    /// A run of letters, digits and `, . _ + - ? # @`: a name, a label, hexadecimal bytes.
    Word,
    /// A word that begins with a digit, between `<` and `>`.
    Number,
    /// A string with its quotes.
    Text,
    /// A name between two slashes, as `/dts-v1/`.
    Directive,
    /// `&` and a label.
    Ref,
    /// One of `{ } ; = , : < > [ ] / (`, or `&{`.
    Sign,
}

/// A token and the bytes of the text that it is: from `start` to before `end`.
#[derive(Clone, Copy)]
pub struct Token {
    pub kind: Kind,
    pub start: u32,
    pub end: u32,
}
