use std::alloc::{AllocError, AllocFailed};

/// Why tokens are no tree. Each place is the index of a byte.
#[derive(Clone, Copy, Debug)]
pub enum TreeFault {
    /// The first token that can't follow those before it, or the end of the text where one is wanted.
    Syntax(u32),
    /// A reference to a label that no node has, or none before this place where a body follows.
    NoLabel(u32),
    /// A label that stands at another node already.
    TwoLabels(u32),
    /// A token that this reader knows and doesn't take, and its end.
    NotSupported { at: u32, end: u32 },
    /// The name of a node more than 32 levels below the root.
    TooDeep(u32),
    Memory,
}

impl<T: Drop> From<AllocFailed<T>> for TreeFault {
    ghost use Rattle.std.specs.Prelude.{◌≡◌};
    ghost use Rattle.dts_tree.specs.declared.fault.TreeFault.TheVariants.{Memory};

    ghost from_gives = { λ _ fault. fault ≡ Memory };

    fn from(_: AllocFailed<T>) -> TreeFault {
        TreeFault::Memory
    }
}

impl From<AllocError> for TreeFault {
    ghost use Rattle.std.specs.Prelude.{◌≡◌};
    ghost use Rattle.dts_tree.specs.declared.fault.TreeFault.TheVariants.{Memory};

    ghost from_gives = { λ _ fault. fault ≡ Memory };

    fn from(_: AllocError) -> TreeFault {
        TreeFault::Memory
    }
}
