ghost use Rattle.std.specs.Prelude.{◌≡◌, map, IfOk};
ghost use Rattle.std.specs.List.{list_any};
ghost use Rattle.std.specs.Option.{option_map};
ghost use Rattle.board.specs.Rail.{is_within};
ghost use Rattle.constraints.specs.Sleeps.{on_asked, sleep_of, is_wrong_value, is_out_of, is_bad_sleep, has_bad_sleep};

use crate::bounds::has_value_within;
use crate::prop::Prop;
use crate::reading::{is_wrong, told};
use board::{Desc, Sleep, Table};
use dts_nodes::number;
use dts_tree::Tree;
use std::alloc::{AllocError, Global};

/// What the nodes for standby, mem and disk ask, where they are there.
pub(crate) fn sleeps_of(
    alloc: Global,
    tree: &Tree,
    states: [Option<u32>; 3],
) -> Result<[Option<Sleep>; 3], AllocError>
    ensures { IfOk result (λ sleeps. sleeps ≡ map (option_map (sleep_of tree.now)) states) }
{
    let [standby, mem, disk] = states;
    let standby = sleep_at(alloc, tree, standby)?;
    let mem = sleep_at(alloc, tree, mem)?;
    let disk = sleep_at(alloc, tree, disk)?;
    Ok([standby, mem, disk])
}

/// What a state's node asks, where it is there.
fn sleep_at(alloc: Global, tree: &Tree, state: Option<u32>) -> Result<Option<Sleep>, AllocError>
    ensures { IfOk result (λ sleep. sleep ≡ option_map (sleep_of tree.now) state) }
{
    let Some(state) = state else {
        return Ok(None);
    };
    let uv = told(number(alloc, tree, state, Prop::SuspendMicrovolt.name())?);
    let on = on_asked(
        tree.has(state, b"regulator-on-in-suspend"),
        tree.has(state, b"regulator-off-in-suspend"),
    );
    Ok(Some(Sleep { on, uv }))
}

/// On, off, or neither; where both are asked for, on wins.
fn on_asked(on: bool, off: bool) -> Option<bool>
    ensures { result ≡ on_asked on off }
{
    match (on, off) {
        (true, _) => Some(true),
        (false, true) => Some(false),
        (false, false) => None,
    }
}

/// The value of one of a node's three state nodes has another form than it should.
pub(crate) fn has_wrong_suspend(
    alloc: Global,
    tree: &Tree,
    states: [Option<u32>; 3],
) -> Result<bool, AllocError>
    ensures { IfOk result (λ wrong. wrong ≡ list_any (is_wrong_value tree.now) states) }
{
    let [standby, mem, disk] = states;
    Ok(
        is_wrong_at(alloc, tree, standby)?
            || is_wrong_at(alloc, tree, mem)?
            || is_wrong_at(alloc, tree, disk)?,
    )
}

/// The value of a state's node has another form than it should.
fn is_wrong_at(alloc: Global, tree: &Tree, state: Option<u32>) -> Result<bool, AllocError>
    ensures { IfOk result (λ wrong. wrong ≡ is_wrong_value tree.now state) }
{
    match state {
        None => Ok(false),
        Some(state) => {
            let value = number(alloc, tree, state, Prop::SuspendMicrovolt.name())?;
            Ok(is_wrong(&value))
        }
    }
}

/// A rail with a selector for suspended boards is to have a value that is out of its table or its bounds.
pub(crate) fn has_bad_sleep(
    desc: &Desc,
    bounds: Option<(u32, u32)>,
    sleeps: &[Option<Sleep>; 3],
) -> bool
    ensures { result ≡ has_bad_sleep desc.now bounds sleeps.now }
{
    desc.suspend_selector.is_some() && any_bad_sleep(&desc.table, bounds, sleeps)
}

/// One of the sleeps has a value that is out of a table or out of bounds.
fn any_bad_sleep(table: &Table, bounds: Option<(u32, u32)>, sleeps: &[Option<Sleep>]) -> bool
    ensures { result ≡ list_any (is_bad_sleep table.now bounds) sleeps.now }
{
    sleeps
        .iter()
        .any(|sleep| is_bad_sleep(table, bounds, sleep))
}

/// What a sleep asks has a value that is out of a table or out of bounds.
fn is_bad_sleep(table: &Table, bounds: Option<(u32, u32)>, sleep: &Option<Sleep>) -> bool
    ensures { result ≡ is_bad_sleep table.now bounds sleep.now }
{
    match sleep {
        Some(Sleep { uv: Some(uv), .. }) => is_out_of(table, bounds, *uv),
        _ => false,
    }
}

/// The value is none of the table, or isn't within the bounds.
fn is_out_of(table: &Table, bounds: Option<(u32, u32)>, uv: u32) -> bool
    ensures { result ≡ is_out_of table.now bounds uv }
{
    !(has_value_within(table, uv, uv) && is_within(bounds, uv))
}

/// The value lies within the bounds, where any are given.
fn is_within(bounds: Option<(u32, u32)>, uv: u32) -> bool
    ensures { result ≡ is_within bounds uv }
{
    match bounds {
        None => true,
        Some((least, greatest)) => least <= uv && uv <= greatest,
    }
}
