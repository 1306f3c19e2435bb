/// A piece of a property's value, where a reference is told by R. The pieces of a value make its parts,
/// one after another.
#[derive(Clone, Copy)]
pub(crate) enum Piece<R> {
    /// Cells begin.
    Cells,
    /// A number among cells.
    Number(u32),
    /// A reference among cells.
    Node(R),
    /// A string begins.
    Text,
    /// Bytes begin.
    Bytes,
    /// A byte of the string or of the bytes.
    Byte(u8),
    /// A reference by itself.
    Whole(R),
}

/// Where a text has a reference: from its ampersand to before its end.
#[derive(Clone, Copy)]
pub(crate) struct Place {
    pub(crate) at: u32,
    pub(crate) end: u32,
}
