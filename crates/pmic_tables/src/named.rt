ghost use Rattle.std.specs.Prelude.{◌↔◌, IfOk, IfSome, IsNone, IsSomeAnd};
ghost use Rattle.pmic_tables.specs.Named.{sheet_named};
ghost use Rattle.pmic_tables.specs.ChipDesc.{IsDescribed};
ghost use Rattle.pmic_tables.specs.Sound.{AreSound, AreApart};

use crate::chip_desc::ChipDesc;
use crate::{pm4, pm8, pm12};
use std::alloc::{AllocError, Global};

/// The chip of a name as it stands in `compatible`, at place `number` of a board; `None` where no
/// chip has this name.
pub fn chip(alloc: Global, compatible: &[u8], number: u8) -> Result<Option<ChipDesc>, AllocError>
    ensures none { IfOk result (λ found. IsNone found ↔ IsNone (sheet_named compatible.now)) }
    ensures described { IfOk result (λ found. IfSome found (λ desc. IsSomeAnd (sheet_named compatible.now) (λ sheet. IsDescribed number sheet desc))) }
    ensures sound { IfOk result (λ found. IfSome found (AreSound number)) }
    ensures apart { IfOk result (λ found. IfSome found AreApart) }
{
    if compatible == b"example,pm4".as_slice() {
        Ok(Some(pm4::describe(alloc, number)?))
    } else if compatible == b"example,pm8".as_slice() {
        Ok(Some(pm8::describe(alloc, number)?))
    } else if compatible == b"example,pm12".as_slice() {
        Ok(Some(pm12::describe(alloc, number)?))
    } else {
        Ok(None)
    }
}
