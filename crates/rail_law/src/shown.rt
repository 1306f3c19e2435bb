//! What registers tell after a write, which isn't made for it.
ghost use Rattle.std.specs.Prelude.{◌≡◌, ◌+◌, ◌-◌, bit_and, length};
ghost use Rattle.chip_regs.specs.Field.{IsField};
ghost use Rattle.chip_regs.specs.Registers.{HasChip, byte_of, field_of};
ghost use Rattle.board.specs.Desc.{ArePlaced};
ghost use Rattle.board.specs.Rail.{uv, is_on};
ghost use Rattle.rail_law.specs.Inside.{shown, IsThere};

use board::{Rail, Write};
use chip_regs::{Address, Bits, Field, Regs};

/// A byte with the bits of a mask taken from another.
fn masked(byte: Bits, mask: Bits, bits: Bits) -> Bits
    ensures { result ≡ byte - bit_and byte mask + bit_and bits mask }
{
    (byte & !mask) | (bits & mask)
}

/// The content of a register.
fn byte_shown(regs: &Regs, write: Option<Write>, chip: u8, reg: Address) -> Bits
    requires chip { HasChip regs.now chip }
    requires there { IsThere write regs.now }
    ensures { result ≡ byte_of (shown write regs.now) chip reg }
{
    let _chips = regs.chips();
    let byte = regs.byte(chip, reg);
    let Some(write) = write else {
        return byte;
    };
    if write.chip == chip && write.reg == reg {
        masked(byte, write.mask, write.bits)
    } else {
        byte
    }
}

/// The number in a field.
#[tactic(auto, unfolding(chip_regs::specs::Registers::field_of))]
fn field_shown(regs: &Regs, write: Option<Write>, field: &Field) -> Bits
    requires fits { IsField field.now }
    requires chip { HasChip regs.now field.now.chip }
    requires there { IsThere write regs.now }
    ensures { result ≡ field_of (shown write regs.now) field.now }
{
    (byte_shown(regs, write, field.chip, field.reg) & field.mask) >> field.shift
}

/// Where the rail stands, in µV.
pub(crate) fn uv_shown(rail: &Rail, regs: &Regs, write: Option<Write>) -> u32
    requires placed { ArePlaced (length regs.now) rail.now.desc }
    requires there { IsThere write regs.now }
    ensures { result ≡ uv rail.now (shown write regs.now) }
{
    match &rail.desc.selector {
        None => rail.kept_uv,
        Some(field) => {
            let selector = u16::from(field_shown(regs, write, field));
            rail.desc.table.value(selector).unwrap_or(rail.kept_uv)
        }
    }
}

/// Whether the rail is on.
pub(crate) fn on_shown(rail: &Rail, regs: &Regs, write: Option<Write>) -> bool
    requires placed { ArePlaced (length regs.now) rail.now.desc }
    requires there { IsThere write regs.now }
    ensures { result ≡ is_on rail.now (shown write regs.now) }
{
    field_shown(regs, write, &rail.desc.enable) == 1
}
