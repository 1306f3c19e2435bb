use crate::chip_desc::{ChipDesc, ChipRail};
use crate::kind::Kind;
use crate::row::Row;
use board::{Desc, Name};
use chip_regs::{Bits, Field, WIDTH};
use item_list::Items;
use std::alloc::{AllocError, Global};

/// Where a chip has its registers.
#[derive(Clone, Copy)]
pub(crate) struct Layout {
    /// The chip, by its place on the board.
    pub(crate) number: u8,
    /// The register with the suspend enable bits of the first eight rails.
    pub(crate) sleep: u8,
}

impl Layout {
    ghost use Rattle.std.specs.Prelude.{◌≡◌, ◌+◌, ◌/◌, ◌<◌, ◌≤◌, Some, IsTrue, IfOk};
    ghost use Rattle.pmic_tables.specs.Rows.{fits, all_fit, line_of, sheet_of};
    ghost use Rattle.pmic_tables.specs.Rules.{HasRoom, field, bit, modes_of};
    ghost use Rattle.pmic_tables.specs.ChipDesc.{seen, rail_of, IsDescribed};

    /// The chip with these rows, and with these registers that aren't 0 after a reset.
    pub(crate) fn describe(
        &self,
        alloc: Global,
        rows: &[Row],
        resets: &[(u8, Bits)],
    ) -> Result<ChipDesc, AllocError>
        requires sleep { self.now.sleep < 64 }
        requires fit { IsTrue (all_fit 0 rows.now) }
        ensures { IfOk result (IsDescribed self.now.number (sheet_of rows.now resets.now self.now.sleep)) }
    {
        let mut rails = Items::from_vec(Vec::with_capacity(alloc, rows.len())?);
        let mut place = 0;
        for row in rows {
            rails.push(self.rail(place, row))?;
            place += 1;
        }
        Ok(ChipDesc {
            rails,
            resets: Items::from_vec(resets.to_vec(alloc)?),
        })
    }

    /// The rail of a row at a place in the chip's order, from 0. What the row doesn't have follows
    /// from the place and the kind.
    pub(crate) fn rail(&self, place: u8, row: &Row) -> ChipRail
        requires sleep { self.now.sleep < 64 }
        requires fits { IsTrue (fits place row.now) }
        ensures { seen result ≡ rail_of self.now.number self.now.sleep place (line_of row.now) }
    {
        let Row(node, supply, values, register, mask, kind) = *row;
        ChipRail {
            node: Name::from(node).unwrap(),
            supply: Name::from(supply).unwrap(),
            desc: Desc {
                table: values.table(),
                selector: Some(self.field(register, mask)),
                enable: self.bit(0x20, place),
                modes: self.modes(place, kind),
                greatest: kind.greatest(),
                suspend_enable: Some(self.bit(self.sleep, place)),
                suspend_selector: Some(self.field(0x40 + place, mask)),
                dropout: kind.dropout(),
                ramp: kind.ramp(),
                enable_time: kind.enable_time(),
            },
        }
    }

    /// A field from bit 0 on.
    fn field(&self, register: u8, mask: Bits) -> Field
        ensures { result ≡ field self.now.number register mask 0 }
    {
        Field {
            chip: self.number,
            reg: register,
            mask,
            shift: 0,
        }
    }

    /// The bit of a rail in registers that have a bit for each of eight rails.
    fn bit(&self, first: u8, place: u8) -> Field
        requires { first < 64 }
        ensures { result ≡ bit self.now.number first place }
    {
        let width = WIDTH as u8;
        let shift = place % width;
        Field {
            chip: self.number,
            reg: first + place / width,
            mask: 1 << shift,
            shift,
        }
    }

    /// The two bits with the mode of a rail; only bucks have modes.
    fn modes(&self, place: u8, kind: Kind) -> Option<Field>
        requires { HasRoom place kind }
        ensures { result ≡ modes_of self.now.number place kind }
    {
        match kind {
            Kind::Buck(_) => Some(Field {
                chip: self.number,
                reg: 0x30,
                mask: 0x03 << (2 * place),
                shift: 2 * place,
            }),
            Kind::Ldo(_) => None,
        }
    }
}
