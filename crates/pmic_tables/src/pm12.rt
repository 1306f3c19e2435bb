//! The chip `example,pm12`: four bucks and eight ldos.
ghost use Rattle.std.specs.Prelude.{IfOk};
ghost use Rattle.pmic_tables.specs.Pm12.{pm12};
ghost use Rattle.pmic_tables.specs.ChipDesc.{IsDescribed};

use crate::chip_desc::ChipDesc;
use crate::kind::Kind::{Buck, Ldo};
use crate::layout::Layout;
use crate::row::Row;
use crate::values::Values::{Pm12Core, Pm12Linear, Pm12Various};
use std::alloc::{AllocError, Global};

/// Node, supply, values, register and mask of the selector, ramp or dropout.
const ROWS: [Row; 12] = [
    Row("buck1", "vin1", Pm12Core, 0x10, 0x7f, Buck(12500)),
    Row("buck2", "vin2", Pm12Core, 0x11, 0x7f, Buck(12500)),
    Row("buck3", "vin3", Pm12Core, 0x12, 0x7f, Buck(12500)),
    Row("buck4", "vin4", Pm12Core, 0x13, 0x7f, Buck(12500)),
    Row("ldo1", "vinl1", Pm12Linear, 0x14, 0x3f, Ldo(100000)),
    Row("ldo2", "vinl1", Pm12Linear, 0x15, 0x3f, Ldo(100000)),
    Row("ldo3", "vinl1", Pm12Linear, 0x16, 0x3f, Ldo(100000)),
    Row("ldo4", "vinl1", Pm12Linear, 0x17, 0x3f, Ldo(100000)),
    Row("ldo5", "vinl2", Pm12Various, 0x18, 0x0f, Ldo(100000)),
    Row("ldo6", "vinl2", Pm12Various, 0x19, 0x0f, Ldo(100000)),
    Row("ldo7", "vinl2", Pm12Various, 0x1a, 0x0f, Ldo(100000)),
    Row("ldo8", "vinl2", Pm12Various, 0x1b, 0x0f, Ldo(100000)),
];

/// The chip at place `number` of a board.
#[tactic(auto, unfolding(crate::specs::Pm12::pm12))]
pub(crate) fn describe(alloc: Global, number: u8) -> Result<ChipDesc, AllocError>
    ensures { IfOk result (IsDescribed number pm12) }
{
    let layout = Layout {
        number,
        sleep: 0x22,
    };
    layout.describe(alloc, &ROWS, &[(0x30, 0x55)])
}
