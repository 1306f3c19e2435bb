use dts_lex::Token;

/// Where in the grammar a text stands between two tokens.
#[derive(Clone, Copy)]
pub(crate) enum Spot {
    /// At the start of the text.
    Start,
    /// Behind `/dts-v1/`.
    Versioned,
    /// Between the items of the file, or between the members of the innermost open body.
    Inside,
    /// Behind the root's slash, which stands here.
    Slashed(u32),
    /// Behind the reference of a body that adds to a node.
    Added,
    /// Behind the brace that ended a body.
    Closed,
    /// Behind the first word of a member.
    Worded(Token),
    /// Behind the colon of a label.
    Behind,
    /// Behind a word that has a label before it.
    Named(Token),
    /// Behind the `=` of the property of this name, or a comma between parts of its value.
    Valued(Token),
    /// Between `<` and `>`.
    InCells(Token),
    /// Between `[` and `]`.
    InBytes(Token),
    /// Behind a part of the value.
    Parted(Token),
}
