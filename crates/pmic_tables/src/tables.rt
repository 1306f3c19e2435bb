//! Tables of voltages from the columns of a data sheet.
ghost use Rattle.std.specs.Prelude.{◌≡◌, ◌+◌, ◌-◌, ◌*◌, ◌^◌, ◌<◌, ◌≤◌, length};
ghost use Rattle.linear_range.specs.LinearRange.{IsFitting};
ghost use Rattle.pmic_tables.specs.Sheet.{range as range_of, one_range as one, two_ranges as two, listed as list_of};

use board::Table;
use linear_range::{LinearRange, RangeTable};
use voltage_table::VoltList;

/// `min` µV at the selector `first`, and `step` µV more for each next one, to the selector `last`.
pub(crate) fn range(min: u32, step: u32, first: u16, last: u16) -> LinearRange
    ensures { result ≡ range_of min step first last }
{
    LinearRange {
        min,
        min_sel: first,
        max_sel: last,
        step,
    }
}

/// A table of one range.
pub(crate) fn one_range(range: LinearRange) -> Table
    requires { IsFitting range }
    ensures { result ≡ one range }
{
    Table::Ranges(RangeTable::<1>::new(&[range]).unwrap().widen())
}

/// A table of two ranges, the second of which goes on behind the selectors of the first.
pub(crate) fn two_ranges(low: LinearRange, high: LinearRange) -> Table
    requires low { IsFitting low }
    requires high { IsFitting high }
    requires behind { low.max_sel < high.min_sel }
    ensures { result ≡ two low high }
{
    Table::Ranges(RangeTable::<2>::new(&[low, high]).unwrap().widen())
}

/// A table of a list of values in µV, the first at the selector 0.
pub(crate) fn listed(values: &[u32]) -> Table
    requires some { 0 < length values.now }
    requires few { length values.now ≤ 32 }
    ensures { result ≡ list_of values.now }
{
    Table::List(VoltList::new(values).unwrap())
}
