//! The chip `example,pm4`: three bucks and an ldo.
ghost use Rattle.std.specs.Prelude.{IfOk};
ghost use Rattle.pmic_tables.specs.Pm4.{pm4};
ghost use Rattle.pmic_tables.specs.ChipDesc.{IsDescribed};

use crate::chip_desc::ChipDesc;
use crate::kind::Kind::{Buck, Ldo};
use crate::layout::Layout;
use crate::row::Row;
use crate::values::Values::{Pm4Core, Pm4Io, Pm4Usb};
use std::alloc::{AllocError, Global};

/// Node, supply, values, register and mask of the selector, ramp or dropout.
const ROWS: [Row; 4] = [
    Row("buck1", "vin1", Pm4Core, 0x10, 0x7f, Buck(12500)),
    Row("buck2", "vin2", Pm4Core, 0x11, 0x7f, Buck(12500)),
    Row("buck3", "vin3", Pm4Io, 0x12, 0x1f, Buck(10000)),
    Row("ldo1", "vinl1", Pm4Usb, 0x13, 0x07, Ldo(100000)),
];

/// The chip at place `number` of a board.
#[tactic(auto, unfolding(crate::specs::Pm4::pm4))]
pub(crate) fn describe(alloc: Global, number: u8) -> Result<ChipDesc, AllocError>
    ensures { IfOk result (IsDescribed number pm4) }
{
    let layout = Layout {
        number,
        sleep: 0x21,
    };
    layout.describe(alloc, &ROWS, &[(0x10, 0x20), (0x11, 0x20), (0x30, 0x15)])
}
