ghost use Rattle.std.specs.Prelude.{◌≡◌, ◌≢◌, Some, None, IfOk, IfErr, OnOk};
ghost use Rattle.std.specs.List.{list_any};
ghost use Rattle.board.specs.Rail.{is_within};
ghost use Rattle.board.specs.Table.{values_of};
ghost use Rattle.constraints.specs.Bounds.{bounds_at, given_bounds, is_one_bound, has_no_value_inside};
ghost use Rattle.constraints.specs.Faults.{fault_of_bounds, bounds_fault};

use crate::fault::RailFault;
use crate::prop::Prop;
use crate::reading::number_or_zero;
use board::Table;
use dts_tree::Tree;
use std::alloc::Global;

/// The bounds of a rail's node in µV, where they are given, or the first of their faults.
pub(crate) fn bounds_of(
    alloc: Global,
    tree: &Tree,
    node: u32,
    rail: u16,
    table: &Table,
    fixed: bool,
) -> Result<Option<(u32, u32)>, RailFault>
    ensures fault { IfErr result (λ fault. fault ≢ RailFault.Memory → bounds_fault tree.now node rail table.now fixed ≡ Some fault) }
    ensures none { OnOk result (bounds_fault tree.now node rail table.now fixed ≡ None) }
    ensures bounds { IfOk result (λ bounds. bounds ≡ bounds_at tree.now node) }
{
    let least = number_or_zero(alloc, tree, node, Prop::MinMicrovolt)?;
    let greatest = number_or_zero(alloc, tree, node, Prop::MaxMicrovolt)?;
    match fault_of_bounds(rail, least, greatest, table, fixed) {
        Some(fault) => Err(fault),
        None => Ok(given_bounds(least, greatest)),
    }
}

/// What is wrong with bounds; a fixed rail has one value.
fn fault_of_bounds(
    rail: u16,
    least: u32,
    greatest: u32,
    table: &Table,
    fixed: bool,
) -> Option<RailFault>
    ensures { result ≡ fault_of_bounds rail least greatest table.now fixed }
{
    if !fixed && is_one_bound(least, greatest) {
        Some(RailFault::OneBound(rail))
    } else if !fixed && greatest < least {
        Some(RailFault::Reversed(rail))
    } else if fixed && least != greatest {
        Some(RailFault::FixedRange(rail))
    } else if has_no_value_inside(given_bounds(least, greatest), table) {
        Some(RailFault::NoValueInside(rail))
    } else {
        None
    }
}

/// Bounds that are both 0 aren't given.
fn given_bounds(least: u32, greatest: u32) -> Option<(u32, u32)>
    ensures { result ≡ given_bounds least greatest }
{
    if least == 0 && greatest == 0 {
        None
    } else {
        Some((least, greatest))
    }
}

/// One bound is given, and the other isn't.
fn is_one_bound(least: u32, greatest: u32) -> bool
    ensures { result ≡ is_one_bound least greatest }
{
    (least == 0) != (greatest == 0)
}

/// Bounds are given, and no value of the table is within them.
fn has_no_value_inside(bounds: Option<(u32, u32)>, table: &Table) -> bool
    ensures { result ≡ has_no_value_inside bounds table.now }
{
    match bounds {
        None => false,
        Some((least, greatest)) => !has_value_within(table, least, greatest),
    }
}

/// A value of the table is one of `least..=greatest` µV.
pub(crate) fn has_value_within(table: &Table, least: u32, greatest: u32) -> bool
    ensures { result ≡ list_any (λ pair. is_within (Some (least, greatest)) pair.1) (values_of table.now) }
{
    match table.selector_high(least) {
        None => false,
        Some(pick) => pick.uv <= greatest,
    }
}
