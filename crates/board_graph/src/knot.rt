/// Vertices next to each other on the path that all lead to each other.
#[derive(Clone, Copy)]
pub(crate) struct Knot {
    /// The place of its first vertex on the path.
    pub(crate) first: usize,
    /// The place of its first step among those that are pending.
    pub(crate) step: usize,
}
