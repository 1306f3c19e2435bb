use std::alloc::AllocError;

/// Why lines were not read as a row.
#[derive(Clone, Copy)]
pub enum RowFault {
    /// They are no row of the board.
    NotARow,
    /// There was no memory left.
    Memory,
}

impl From<AllocError> for RowFault {
    ghost use Rattle.std.specs.Prelude.{◌≡◌};
    ghost use Rattle.rows.specs.declared.row_fault.RowFault.TheVariants.{Memory};

    ghost from_gives = { λ _ fault. fault ≡ Memory };

    fn from(_: AllocError) -> RowFault {
        RowFault::Memory
    }
}
