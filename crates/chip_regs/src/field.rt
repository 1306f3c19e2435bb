ghost use Rattle.std.specs.Prelude.{IsTrue, ◌↔◌};

use crate::width::{Address, Bits, WIDTH};

/// Neighbouring bits of one register that hold a number together, as a data sheet names them.
///
/// The bits 4 to 6 of a register are the mask 0x70 at the shift 4.
#[derive(Clone, Copy)]
pub struct Field {
    /// The chip, by its place on the board.
    pub chip: u8,
    /// The address of the register in the chip.
    pub reg: Address,
    /// The bits of the field.
    pub mask: Bits,
    /// The place of the field's lowest bit.
    pub shift: u8,
}

impl Field {
    ghost use Rattle.chip_regs.specs.Field.{IsField, SharesBit};

    /// Whether the mask is one run of ones that starts at the bit `shift`, as that of a field has
    /// to be.
    pub fn fits(&self) -> bool
        ensures { IsTrue result ↔ IsField self.now }
    {
        let shift = u32::from(self.shift);
        if shift >= WIDTH {
            return false;
        }
        for width in 1..WIDTH - shift + 1 {
            let run = Bits::MAX >> (WIDTH - width);
            if self.mask == run << shift {
                return true;
            }
        }
        false
    }

    /// Whether some bit of some register is in both fields.
    pub(crate) fn shares_bit(&self, other: &Field) -> bool
        ensures { IsTrue result ↔ SharesBit self.now other.now }
    {
        self.chip == other.chip && self.reg == other.reg && self.mask & other.mask != 0
    }
}
