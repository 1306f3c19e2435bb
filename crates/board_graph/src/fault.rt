use std::alloc::AllocError;

/// Why the rails of a board can't come up one after another.
#[derive(Clone, Copy, Debug)]
pub enum LoopFault {
    /// The least rail on a loop of supplies.
    Supply(u16),
    /// The least rail on a loop of blocks, where no rail is on a loop of supplies.
    Group(u16),
    Memory,
}

impl From<AllocError> for LoopFault {
    ghost use Rattle.std.specs.Prelude.{◌≡◌};
    ghost use Rattle.board_graph.specs.declared.fault.LoopFault.TheVariants.{Memory};

    ghost from_gives = { λ _ fault. fault ≡ Memory };

    fn from(_: AllocError) -> LoopFault {
        LoopFault::Memory
    }
}
