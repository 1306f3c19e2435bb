/// A part of a rail that has a register field of its own.
#[derive(Clone, Copy)]
pub enum Part {
    /// Which value the rail has.
    Selector,
    /// Whether it is on.
    Enable,
    /// The mode that it is in.
    ModePart,
    /// Whether it is on while the board is suspended.
    SuspendEnable,
    /// Which value it has while the board is suspended.
    SuspendSelector,
}
