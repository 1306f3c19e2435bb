//! The chip `example,pm8`: four bucks and four ldos.
ghost use Rattle.std.specs.Prelude.{IfOk};
ghost use Rattle.pmic_tables.specs.Pm8.{pm8};
ghost use Rattle.pmic_tables.specs.ChipDesc.{IsDescribed};

use crate::chip_desc::ChipDesc;
use crate::kind::Kind::{Buck, Ldo};
use crate::layout::Layout;
use crate::row::Row;
use crate::values::Values::{Pm8Core, Pm8Linear, Pm8Memory};
use std::alloc::{AllocError, Global};

/// Node, supply, values, register and mask of the selector, ramp or dropout.
const ROWS: [Row; 8] = [
    Row("buck1", "vin1", Pm8Core, 0x10, 0x7f, Buck(10000)),
    Row("buck2", "vin2", Pm8Core, 0x11, 0x7f, Buck(10000)),
    Row("buck3", "vin3", Pm8Memory, 0x12, 0x3f, Buck(10000)),
    Row("buck4", "vin4", Pm8Memory, 0x13, 0x3f, Buck(10000)),
    Row("ldo1", "vinl1", Pm8Linear, 0x14, 0x1f, Ldo(150000)),
    Row("ldo2", "vinl1", Pm8Linear, 0x15, 0x1f, Ldo(150000)),
    Row("ldo3", "vinl2", Pm8Linear, 0x16, 0x1f, Ldo(150000)),
    Row("ldo4", "vinl2", Pm8Linear, 0x17, 0x1f, Ldo(150000)),
];

/// The chip at place `number` of a board.
#[tactic(auto, unfolding(crate::specs::Pm8::pm8))]
pub(crate) fn describe(alloc: Global, number: u8) -> Result<ChipDesc, AllocError>
    ensures { IfOk result (IsDescribed number pm8) }
{
    let layout = Layout {
        number,
        sleep: 0x21,
    };
    layout.describe(alloc, &ROWS, &[(0x30, 0x55)])
}
