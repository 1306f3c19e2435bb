use std::alloc::AllocFailed;

/// Why a text has no tokens. Each place is the index of a byte.
#[derive(Clone, Copy, Debug)]
pub enum LexFault {
    /// A byte that begins no token, a byte or an escape that may not stand in a string, or the
    /// first byte of a malformed number.
    BadChar(u32),
    /// The start of a string or a comment that has no end.
    Unclosed(u32),
    /// The first byte of a number above 4294967295.
    NumberTooWide(u32),
    Memory,
}

impl<T: Drop> From<AllocFailed<T>> for LexFault {
    ghost use Rattle.std.specs.Prelude.{◌≡◌};
    ghost use Rattle.dts_lex.specs.declared.fault.LexFault.TheVariants.{Memory};

    ghost from_gives = { λ _ fault. fault ≡ Memory };

    fn from(_: AllocFailed<T>) -> LexFault {
        LexFault::Memory
    }
}
