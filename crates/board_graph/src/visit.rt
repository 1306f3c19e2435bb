/// How far the walk has come with a vertex.
#[derive(Clone, Copy)]
pub(crate) enum Visit {
    New,
    /// It stands at this place of the path.
    Open(usize),
    /// All that it leads to is done; whether it is on a loop.
    Done(bool),
}
