ghost use Rattle.std.specs.Prelude.{◌≡◌, Some, IfSome};
ghost use Rattle.std.specs.Option.{option_map};
ghost use Rattle.linear_range.specs.Pick.{pair_of};
ghost use Rattle.linear_range.specs.Values.{value_of, values, pick_high, pick_low};
ghost use Rattle.voltage_table.specs.Values.{value_of as entry_of, values as entries};
ghost use Rattle.voltage_table.specs.ListPick.{pair_of as entry_pair};

use linear_range::{Pick, RangeTable};
use voltage_table::{ListPick, VoltList};

/// The voltages of a rail by selector.
#[derive(Drop)]
pub enum Table {
    /// Evenly spaced voltages, in up to eight ranges.
    Ranges(RangeTable<8>),
    /// Up to 32 voltages, one after another.
    List(VoltList<32>),
}

impl Table {
    ghost use Rattle.std.specs.Prelude.{◌≡◌, Some, IfSome, length};
    ghost use Rattle.std.specs.Option.{option_map};
    ghost use Rattle.linear_range.specs.Values.{pick_high, pick_low};
    ghost use Rattle.linear_range.specs.Pick.{pair_of};
    ghost use Rattle.board.specs.Table.{uv_of, values_of};

    /// The value of a selector, in µV.
    pub fn value(&self, sel: u16) -> Option<u32>
        ensures { result ≡ uv_of self.now sel }
    {
        match self {
            Table::Ranges(ranges) => ranges.value(sel),
            Table::List(list) => list.value(sel),
        }
    }

    /// The least value not below `uv` µV, at its first selector.
    pub fn selector_high(&self, uv: u32) -> Option<Pick>
        ensures pick { option_map pair_of result ≡ pick_high (values_of self.now) uv }
        ensures value { IfSome result (λ pick. uv_of self.now pick.sel ≡ Some pick.uv) }
    {
        match self {
            Table::Ranges(ranges) => ranges_high(ranges, uv),
            Table::List(list) => list_high(list, uv),
        }
    }

    /// The greatest value not above `uv` µV, at its first selector.
    pub fn selector_low(&self, uv: u32) -> Option<Pick>
        ensures pick { option_map pair_of result ≡ pick_low (values_of self.now) uv }
        ensures value { IfSome result (λ pick. uv_of self.now pick.sel ≡ Some pick.uv) }
    {
        match self {
            Table::Ranges(ranges) => ranges_low(ranges, uv),
            Table::List(list) => list_low(list, uv),
        }
    }

    /// The number of selectors with a value.
    pub fn count(&self) -> u32
        ensures { result ≡ length (values_of self.now) }
    {
        match self {
            Table::Ranges(ranges) => ranges.count(),
            Table::List(list) => list.count(),
        }
    }
}

/// The least value of ranges not below `uv` µV, which its selector has.
fn ranges_high(ranges: &RangeTable<8>, uv: u32) -> Option<Pick>
    ensures pick { option_map pair_of result ≡ pick_high (values ranges.now) uv }
    ensures value { IfSome result (λ pick. value_of ranges.now pick.sel ≡ Some pick.uv) }
{
    linear_range::laws_of(ranges);
    ranges.selector_high(uv)
}

/// The greatest value of ranges not above `uv` µV, which its selector has.
fn ranges_low(ranges: &RangeTable<8>, uv: u32) -> Option<Pick>
    ensures pick { option_map pair_of result ≡ pick_low (values ranges.now) uv }
    ensures value { IfSome result (λ pick. value_of ranges.now pick.sel ≡ Some pick.uv) }
{
    linear_range::laws_of(ranges);
    ranges.selector_low(uv)
}

/// The least value of a list not below `uv` µV, which its selector has.
fn list_high(list: &VoltList<32>, uv: u32) -> Option<Pick>
    ensures pick { option_map pair_of result ≡ pick_high (entries list.now) uv }
    ensures value { IfSome result (λ pick. entry_of list.now pick.sel ≡ Some pick.uv) }
{
    voltage_table::laws_of(list);
    pick_of(list.selector_high(uv))
}

/// The greatest value of a list not above `uv` µV, which its selector has.
fn list_low(list: &VoltList<32>, uv: u32) -> Option<Pick>
    ensures pick { option_map pair_of result ≡ pick_low (entries list.now) uv }
    ensures value { IfSome result (λ pick. entry_of list.now pick.sel ≡ Some pick.uv) }
{
    voltage_table::laws_of(list);
    pick_of(list.selector_low(uv))
}

/// The pick of a list as that of any table.
fn pick_of(entry: Option<ListPick>) -> Option<Pick>
    ensures { option_map pair_of result ≡ option_map entry_pair entry }
{
    let ListPick { sel, uv } = entry?;
    Some(Pick { sel, uv })
}
