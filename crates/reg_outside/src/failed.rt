/// What a source, a sink or a wire answers where it failed: its count of faults tells the rest.
#[derive(Clone, Copy, Debug, PartialEq, Eq)]
pub struct Failed;
