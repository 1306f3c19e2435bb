use crate::prop::Prop;
use std::alloc::AllocError;

/// Why a node gives a rail no constraints. `rail` is the number that the caller has for it.
#[derive(Clone, Copy, Debug)]
pub enum RailFault {
    /// The property has another form than it should.
    BadCells { rail: u16, prop: Prop },
    /// One bound is given, and the other isn't.
    OneBound(u16),
    /// The least bound is above the greatest.
    Reversed(u16),
    /// The bounds of a rail of one value differ.
    FixedRange(u16),
    /// No value of the rail's table lies within its bounds.
    NoValueInside(u16),
    /// This number in one of the two mode properties is no mode.
    BadMode { rail: u16, n: u32 },
    /// The value for a suspended board isn't one of the table, or not within the bounds.
    SuspendValue(u16),
    /// An allocation was refused.
    Memory,
}

impl From<AllocError> for RailFault {
    ghost use Rattle.std.specs.Prelude.{◌≡◌};
    ghost use Rattle.constraints.specs.declared.fault.RailFault.TheVariants.{Memory};

    ghost from_gives = { λ _ fault. fault ≡ Memory };

    fn from(_: AllocError) -> RailFault {
        RailFault::Memory
    }
}
