/// Why a list of values is no table.
#[derive(Clone, Copy, Debug, PartialEq, Eq)]
pub enum ListFault {
    /// There is no value.
    Empty,
    /// So many values, which is more than the table holds.
    TooMany(usize),
}
