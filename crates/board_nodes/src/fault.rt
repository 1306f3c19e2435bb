use std::alloc::{AllocError, AllocFailed};

/// Why the nodes of a tree make no board. Rails are told by their numbers.
#[derive(Clone, Copy, Debug)]
pub enum NodesFault {
    /// There are so many chips, more than 16.
    TooManyChips(usize),
    /// The node at this byte has rails, and isn't a chip that is known.
    UnknownChip(u32),
    /// There are so many rails, more than 64.
    TooManyRails(usize),
    /// There is no rail.
    NoRails,
    /// The rail's name has more than 64 bytes.
    NameTooLong(u16),
    /// Two rails have one name.
    TwoNames(u16, u16),
    /// An allocation was refused.
    Memory,
}

impl<T: Drop> From<AllocFailed<T>> for NodesFault {
    ghost use Rattle.std.specs.Prelude.{◌≡◌};
    ghost use Rattle.board_nodes.specs.declared.fault.NodesFault.TheVariants.{Memory};

    ghost from_gives = { λ _ fault. fault ≡ Memory };

    fn from(_: AllocFailed<T>) -> NodesFault {
        NodesFault::Memory
    }
}

impl From<AllocError> for NodesFault {
    ghost use Rattle.std.specs.Prelude.{◌≡◌};
    ghost use Rattle.board_nodes.specs.declared.fault.NodesFault.TheVariants.{Memory};

    ghost from_gives = { λ _ fault. fault ≡ Memory };

    fn from(_: AllocError) -> NodesFault {
        NodesFault::Memory
    }
}
