ghost use Rattle.std.specs.Prelude.{◌≡◌, ◌≢◌, None, Some, IfOk, IfErr, OnOk};
ghost use Rattle.constraints.specs.Faults.{value_fault, rail_fault};
ghost use Rattle.constraints.specs.Node.{times_at, constraints_at};
ghost use Rattle.constraints.specs.Sleeps.{state_nodes};

use crate::bounds::bounds_of;
use crate::fault::RailFault;
use crate::forms::wrong_form;
use crate::modes::modes_of;
use crate::prop::Prop;
use crate::reading::number_or_zero;
use crate::sleeps::{has_bad_sleep, sleeps_of};
use crate::states::StateNodes;
use board::{Constraints, Desc};
use dts_tree::Tree;
use ramp_delay::Times;
use std::alloc::{AllocError, Global};

/// What is asked of a rail in its node, or the first fault of the node. `rail` stands in a fault alone, and
/// a fixed rail has one value. The tree is walked for the nodes of suspended boards: for the rails of a
/// board find them once, and call `wrong_form` and `constraints_with`.
pub fn constraints_of(
    alloc: Global,
    tree: &Tree,
    node: u32,
    rail: u16,
    desc: &Desc,
    fixed: bool,
) -> Result<Constraints, RailFault>
    ensures fault { IfErr result (λ fault. fault ≢ RailFault.Memory → rail_fault tree.now node rail desc.now fixed ≡ Some fault) }
    ensures none { OnOk result (rail_fault tree.now node rail desc.now fixed ≡ None) }
    ensures constraints { IfOk result (λ constraints. constraints ≡ constraints_at tree.now node desc.now) }
{
    let found = StateNodes::find(alloc, tree)?;
    let states = found.below(node);
    match wrong_form(alloc, tree, node, states, desc)? {
        Some(prop) => Err(RailFault::BadCells { rail, prop }),
        None => constraints_with(alloc, tree, node, states, rail, desc, fixed),
    }
}

/// What is asked of a rail in its node, or the first fault of the node's values; a property of another
/// form counts as if it weren't there. `states` are the node's state nodes.
pub fn constraints_with(
    alloc: Global,
    tree: &Tree,
    node: u32,
    states: [Option<u32>; 3],
    rail: u16,
    desc: &Desc,
    fixed: bool,
) -> Result<Constraints, RailFault>
    requires { states ≡ state_nodes tree.now node }
    ensures fault { IfErr result (λ fault. fault ≢ RailFault.Memory → value_fault tree.now node rail desc.now fixed ≡ Some fault) }
    ensures none { OnOk result (value_fault tree.now node rail desc.now fixed ≡ None) }
    ensures constraints { IfOk result (λ constraints. constraints ≡ constraints_at tree.now node desc.now) }
{
    let bounds = bounds_of(alloc, tree, node, rail, &desc.table, fixed)?;
    let (allowed, initial) = modes_of(alloc, tree, node, rail, desc)?;
    let sleeps = sleeps_of(alloc, tree, states)?;
    if has_bad_sleep(desc, bounds, &sleeps) {
        return Err(RailFault::SuspendValue(rail));
    }
    Ok(Constraints {
        bounds,
        always_on: tree.has(node, b"regulator-always-on"),
        boot_on: tree.has(node, b"regulator-boot-on"),
        allow_load: tree.has(node, b"regulator-allow-set-load"),
        system_load: number_or_zero(alloc, tree, node, Prop::SystemLoad)?,
        times: times_of(alloc, tree, node)?,
        enable_ramp: number_or_zero(alloc, tree, node, Prop::EnableRampDelay)?,
        allowed,
        initial,
        max_step: number_or_zero(alloc, tree, node, Prop::MaxStep)?,
        sleeps,
    })
}

/// How long changes of the rail's voltage take.
fn times_of(alloc: Global, tree: &Tree, node: u32) -> Result<Times, AllocError>
    ensures { IfOk result (λ times. times ≡ times_at tree.now node) }
{
    Ok(Times {
        ramp: number_or_zero(alloc, tree, node, Prop::RampDelay)?,
        settle: number_or_zero(alloc, tree, node, Prop::SettlingTime)?,
        up: number_or_zero(alloc, tree, node, Prop::SettlingTimeUp)?,
        down: number_or_zero(alloc, tree, node, Prop::SettlingTimeDown)?,
    })
}
