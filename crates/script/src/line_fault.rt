/// What is wrong with a line of a script.
#[derive(Clone, Copy)]
pub enum LineFault {
    /// It is the line of no call.
    BadLine,
    /// It opens a handle on a rail that isn't there.
    NoRail,
}
