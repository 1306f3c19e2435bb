/// What a board asks that it can't hold. Rails are told by their numbers, values in µV; of several rails or
/// pairs the least one is told.
#[derive(Clone, Copy, Debug)]
pub enum CheckFault {
    /// The rail is coupled, and its widest gap between neighbouring values is above the spread: the rail,
    /// the gap and the spread.
    GapOverSpread(u16, u32, u32),
    /// The rail's widest gap between neighbouring values is above its greatest step: the rail, the gap and
    /// the step.
    GapOverStep(u16, u32, u32),
    /// In one state of a suspended board these two coupled rails are further apart than their spread.
    SuspendSpread(u16, u16),
    /// No mode of the rail carries the load that no consumer tells, in µA.
    LoadOverModes(u16, u64),
}
