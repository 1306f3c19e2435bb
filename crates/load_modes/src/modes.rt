ghost use Rattle.std.specs.Prelude.{⊤, [], ◌∷◌, codes};

use bitflags::{Flag, Flags, bitflag_items};

/// A set of modes, as `regulator-allowed-modes` gives one. The bits are those of Linux's
/// `REGULATOR_MODE_FAST` to `REGULATOR_MODE_STANDBY` in `include/linux/regulator/consumer.h`.
#[derive(Clone, Copy)]
pub struct Modes(u8);

bitflag_items! {
    impl Modes: u8 {
        const FAST = 1;
        const NORMAL = 2;
        const IDLE = 4;
        const STANDBY = 8;
    }
}

impl Flags for Modes {
    type Bits = u8;

    ghost exact = { ⊤ };

    ghost table = { (codes "FAST", 1) ∷ (codes "NORMAL", 2) ∷ (codes "IDLE", 4) ∷ (codes "STANDBY", 8) ∷ [] };

    ghost set_of = { λ modes. modes.0 };

    fn flags<'a>() -> &'a [Flag<Modes>] {
        Modes::FLAGS
    }

    fn bits(&self) -> u8 {
        self.0
    }

    fn from_bits_retain(bits: u8) -> Modes {
        Modes(bits)
    }
}
