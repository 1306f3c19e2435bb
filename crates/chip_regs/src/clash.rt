ghost use Rattle.std.specs.Prelude.{◌↔◌, IsOk, IfErr};
ghost use Rattle.chip_regs.specs.Clash.{NoneClash, IsFirstClash};

use crate::field::Field;

/// The places of two fields that share a bit of one register, in a list of fields.
#[derive(Clone, Copy, Debug, PartialEq, Eq)]
pub struct Clash {
    pub first: usize,
    pub second: usize,
}

/// Whether no two of the fields share a bit of one register, or else the first two that do: of
/// all such pairs the least `first`, and with it the least `second`.
///
/// Of the masks 0x0f, 0x70 and 0x1c of one register the first clash is of the places 0 and 2.
pub fn disjoint(fields: &[Field]) -> Result<(), Clash>
    ensures ok { IsOk result ↔ NoneClash fields.now }
    ensures clash { IfErr result (IsFirstClash fields.now) }
{
    for (first, field) in fields.iter().enumerate() {
        for second in first + 1..fields.len() {
            if field.shares_bit(&fields[second]) {
                return Err(Clash { first, second });
            }
        }
    }
    Ok(())
}
