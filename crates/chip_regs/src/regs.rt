ghost use Rattle.std.specs.Prelude.{ℕ, ◌≡◌, ◌≢◌, ◌⊎◌, ◌<◌, ◌↔◌, IfOk, length, replicate, IsBitSet};
ghost use Rattle.chip_regs.specs.Registers.{byte_of, with_byte, field_of, with_field, HasChip, IsImage};
ghost use Rattle.chip_regs.specs.declared.field.Field.{Field};
ghost use Rattle.chip_regs.specs.Field.{IsField, FitsField, HasBit, SharesBit};

use crate::field::Field;
use crate::width::{Address, Bits, REGISTERS};
use std::alloc::{AllocError, Global};
use std::marker::Model;

/// The registers of a board's chips. Contracts see the chips in order, each as the
/// list of what its registers hold.
#[derive(Drop)]
pub struct Regs {
    chips: Vec<[Bits; REGISTERS]>,
}

impl Model for Regs {
    ghost use Rattle.std.specs.Prelude.{List, ℕ};
    ghost use Rattle.chip_regs.specs.Registers.{IsImage};

    ghost Value = { List (List ℕ) };

    ghost view = { λ regs. regs.chips.items };

    ghost invariant = { λ regs. IsImage regs.chips.items };
}

impl Regs {
    /// All registers of so many chips, each 0.
    pub fn new(alloc: Global, chips: u8) -> Result<Regs, AllocError>
        ensures { IfOk result (λ regs. regs ≡ replicate chips (replicate REGISTERS 0)) }
    {
        let mut blank = Vec::with_capacity(alloc, usize::from(chips))?;
        for _chip in 0..chips {
            blank.push([0; REGISTERS])?;
        }
        Ok(Regs { chips: blank })
    }

    /// How many chips there are.
    pub fn chips(&self) -> usize
        ensures count { result ≡ length self.now }
        ensures image { IsImage self.now }
    {
        self.chips.len()
    }

    /// The content of a register.
    #[tactic(auto, unfolding(crate::specs::Registers::byte_of))]
    pub fn byte(&self, chip: u8, reg: Address) -> Bits
        requires { HasChip self.now chip }
        ensures { result ≡ byte_of self.now chip reg }
    {
        self.chips[usize::from(chip)][usize::from(reg)]
    }

    /// Writes a whole register. Every other register stays.
    pub fn set_byte(&mut self, chip: u8, reg: Address, byte: Bits)
        requires { HasChip self.old chip }
        ensures registers { self.new ≡ with_byte self.old chip reg byte }
        ensures written { byte_of self.new chip reg ≡ byte }
        ensures others { (other at : ℕ) → (other ≢ chip) ⊎ (at ≢ reg) → byte_of self.new other at ≡ byte_of self.old other at }
        ensures chips { length self.new ≡ length self.old }
    {
        self.chips[usize::from(chip)][usize::from(reg)] = byte;
    }

    /// The number in a field.
    #[tactic(auto, unfolding(crate::specs::Registers::field_of))]
    pub fn get(&self, field: &Field) -> Bits
        requires fits { IsField field.now }
        requires chip { HasChip self.now field.now.chip }
        ensures number { result ≡ field_of self.now field.now }
        ensures room { FitsField field.now result }
    {
        (self.byte(field.chip, field.reg) & field.mask) >> field.shift
    }

    /// Puts a number that fits into a field. No other bit of any register changes.
    ///
    /// To put 3 into the bits 2 and 3 of a register that holds 0x15 leaves 0x1d there.
    pub fn put(&mut self, field: &Field, bits: Bits)
        requires fits { IsField field.now }
        requires chip { HasChip self.old field.now.chip }
        requires room { FitsField field.now bits }
        ensures registers { self.new ≡ with_field self.old field.now bits }
        ensures written { field_of self.new field.now ≡ bits }
        ensures others { (chip reg bit : ℕ) → ¬ HasBit field.now chip reg bit
            → (IsBitSet (byte_of self.new chip reg) bit ↔ IsBitSet (byte_of self.old chip reg) bit) }
        ensures other_fields { (other : Field) → ¬ SharesBit field.now other → field_of self.new other ≡ field_of self.old other }
        ensures chips { length self.new ≡ length self.old }
    {
        let register = &mut self.chips[usize::from(field.chip)][usize::from(field.reg)];
        *register = (*register & !field.mask) | (bits << field.shift);
    }
}
