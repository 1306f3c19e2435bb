use board_checks::CheckFault;
use board_nodes::NodesFault;
use constraints::{Prop, RailFault};
use std::alloc::{AllocError, AllocFailed};

/// Why a tree makes no board. Rails are told by their numbers, values in µV, and of several rails or pairs
/// the least one is told.
#[derive(Clone, Copy, Debug)]
pub enum BoardFault {
    /// There are so many chips, more than 16.
    TooManyChips(usize),
    /// The node at this byte has rails, and isn't a chip that is known.
    UnknownChip(u32),
    /// There are so many rails, more than 64.
    TooManyRails(usize),
    /// There is no rail.
    NoRails,
    /// The rail's name has more than 64 bytes.
    NameTooLong(u16),
    /// Two rails have one name.
    TwoNames(u16, u16),
    /// A property of the rail has another form than it should.
    BadCells { rail: u16, prop: Prop },
    /// One bound of the rail is given, and the other isn't.
    OneBound(u16),
    /// The rail's least bound is above its greatest.
    Reversed(u16),
    /// The bounds of a fixed rail differ.
    FixedRange(u16),
    /// No value of the rail's table lies within its bounds.
    NoValueInside(u16),
    /// This number in one of the rail's two mode properties is no mode.
    BadMode { rail: u16, n: u32 },
    /// The rail's value for a suspended board isn't one of its table, or not within its bounds.
    SuspendValue(u16),
    /// What the rail names as its supply is no rail.
    NoSupply(u16),
    /// The rail is a supply of its own, or further up of its own.
    SupplyLoop(u16),
    /// One that the rail names as coupled isn't another rail, or is named twice.
    NoCouple(u16),
    /// The first rail names the second, and the two name different groups.
    OneWay(u16, u16),
    /// The rail is coupled, and states no spread.
    NoSpread(u16),
    /// Two coupled rails state different spreads.
    SpreadsDiffer(u16, u16),
    /// The first rail is coupled with the second, which is its supply or further up.
    CoupledSupplier(u16, u16),
    /// The rail's group feeds itself, by way of other groups.
    GroupLoop(u16),
    /// The rail is coupled, and its widest gap between neighbouring values is above the spread.
    GapOverSpread(u16, u32, u32),
    /// The rail's widest gap between neighbouring values is above its greatest step.
    GapOverStep(u16, u32, u32),
    /// In one state of a suspended board two coupled rails differ by more than their spread.
    SuspendSpread(u16, u16),
    /// No mode of the rail carries the load that no consumer tells, in µA.
    LoadOverModes(u16, u64),
    /// An allocation was refused.
    Memory,
}

impl From<AllocError> for BoardFault {
    ghost use Rattle.std.specs.Prelude.{◌≡◌};
    ghost use Rattle.board_draft.specs.declared.fault.BoardFault.TheVariants.{Memory};

    ghost from_gives = { λ _ fault. fault ≡ Memory };

    fn from(_: AllocError) -> BoardFault {
        BoardFault::Memory
    }
}

impl<T: Drop> From<AllocFailed<T>> for BoardFault {
    ghost use Rattle.std.specs.Prelude.{◌≡◌};
    ghost use Rattle.board_draft.specs.declared.fault.BoardFault.TheVariants.{Memory};

    ghost from_gives = { λ _ fault. fault ≡ Memory };

    fn from(_: AllocFailed<T>) -> BoardFault {
        BoardFault::Memory
    }
}

impl From<NodesFault> for BoardFault {
    ghost use Rattle.std.specs.Prelude.{◌≡◌};
    ghost use Rattle.board_draft.specs.Fault.{of_nodes};

    ghost from_gives = { λ inner fault. fault ≡ of_nodes inner };

    fn from(fault: NodesFault) -> BoardFault {
        match fault {
            NodesFault::TooManyChips(n) => BoardFault::TooManyChips(n),
            NodesFault::UnknownChip(at) => BoardFault::UnknownChip(at),
            NodesFault::TooManyRails(n) => BoardFault::TooManyRails(n),
            NodesFault::NoRails => BoardFault::NoRails,
            NodesFault::NameTooLong(r) => BoardFault::NameTooLong(r),
            NodesFault::TwoNames(a, b) => BoardFault::TwoNames(a, b),
            NodesFault::Memory => BoardFault::Memory,
        }
    }
}

impl From<RailFault> for BoardFault {
    ghost use Rattle.std.specs.Prelude.{◌≡◌};
    ghost use Rattle.board_draft.specs.Fault.{of_rail};

    ghost from_gives = { λ inner fault. fault ≡ of_rail inner };

    fn from(fault: RailFault) -> BoardFault {
        match fault {
            RailFault::BadCells { rail, prop } => BoardFault::BadCells { rail, prop },
            RailFault::OneBound(r) => BoardFault::OneBound(r),
            RailFault::Reversed(r) => BoardFault::Reversed(r),
            RailFault::FixedRange(r) => BoardFault::FixedRange(r),
            RailFault::NoValueInside(r) => BoardFault::NoValueInside(r),
            RailFault::BadMode { rail, n } => BoardFault::BadMode { rail, n },
            RailFault::SuspendValue(r) => BoardFault::SuspendValue(r),
            RailFault::Memory => BoardFault::Memory,
        }
    }
}

impl From<CheckFault> for BoardFault {
    ghost use Rattle.std.specs.Prelude.{◌≡◌};
    ghost use Rattle.board_draft.specs.Fault.{of_check};

    ghost from_gives = { λ inner fault. fault ≡ of_check inner };

    fn from(fault: CheckFault) -> BoardFault {
        match fault {
            CheckFault::GapOverSpread(r, gap, spread) => BoardFault::GapOverSpread(r, gap, spread),
            CheckFault::GapOverStep(r, gap, step) => BoardFault::GapOverStep(r, gap, step),
            CheckFault::SuspendSpread(a, b) => BoardFault::SuspendSpread(a, b),
            CheckFault::LoadOverModes(r, sum) => BoardFault::LoadOverModes(r, sum),
        }
    }
}
