ghost use Rattle.std.specs.Prelude.{◌≡◌, IfOk};
ghost use Rattle.dts_nodes.specs.Forms.{first_string_at, is_wrong};
ghost use Rattle.constraints.specs.Prop.{name_of};
ghost use Rattle.constraints.specs.Sleeps.{state_nodes};
ghost use Rattle.constraints.specs.Faults.{number_props, number_forms, mode_forms, coupling_forms, first_wrong, wrong_form};

use crate::coupling::is_wrong_spread;
use crate::prop::Prop;
use crate::reading::is_wrong;
use crate::sleeps::has_wrong_suspend;
use board::Desc;
use dts_nodes::{cells, first_string, number, numbers};
use dts_tree::Tree;
use std::alloc::{AllocError, Global};

/// The properties of one number that each rail may have.
const NUMBERS: [Prop; 9] = [
    Prop::MinMicrovolt,
    Prop::MaxMicrovolt,
    Prop::SystemLoad,
    Prop::RampDelay,
    Prop::EnableRampDelay,
    Prop::SettlingTime,
    Prop::SettlingTimeUp,
    Prop::SettlingTimeDown,
    Prop::MaxStep,
];

/// The first property of a rail's node that has another form than it should; the supply isn't looked at.
/// `states` are the node's state nodes.
pub fn wrong_form(
    alloc: Global,
    tree: &Tree,
    node: u32,
    states: [Option<u32>; 3],
    desc: &Desc,
) -> Result<Option<Prop>, AllocError>
    requires { states ≡ state_nodes tree.now node }
    ensures { IfOk result (λ prop. prop ≡ wrong_form tree.now node desc.now) }
{
    if is_wrong_name(alloc, tree, node)? {
        return Ok(Some(Prop::Name));
    }
    let number = wrong_number(alloc, tree, node)?;
    if number.is_some() {
        return Ok(number);
    }
    let mode = wrong_mode(alloc, tree, node, desc)?;
    if mode.is_some() {
        return Ok(mode);
    }
    let coupling = wrong_coupling(alloc, tree, node)?;
    if coupling.is_some() {
        return Ok(coupling);
    }
    if has_wrong_suspend(alloc, tree, states)? {
        return Ok(Some(Prop::SuspendMicrovolt));
    }
    Ok(None)
}

/// The rail's name has another form.
fn is_wrong_name(alloc: Global, tree: &Tree, node: u32) -> Result<bool, AllocError>
    ensures { IfOk result (λ wrong. wrong ≡ is_wrong (first_string_at tree.now node (name_of Prop.Name))) }
{
    let name = first_string(alloc, tree, node, Prop::Name.name())?;
    Ok(is_wrong(&name))
}

/// The first property of one number that has another form.
fn wrong_number(alloc: Global, tree: &Tree, node: u32) -> Result<Option<Prop>, AllocError>
    ensures { IfOk result (λ prop. prop ≡ first_wrong (number_forms tree.now node number_props)) }
{
    for prop in NUMBERS {
        let form = number(alloc, tree, node, prop.name())?;
        if is_wrong(&form) {
            return Ok(Some(prop));
        }
    }
    Ok(None)
}

/// The first property of modes that has another form; of a rail without a mode field they aren't looked at.
fn wrong_mode(
    alloc: Global,
    tree: &Tree,
    node: u32,
    desc: &Desc,
) -> Result<Option<Prop>, AllocError>
    ensures { IfOk result (λ prop. prop ≡ first_wrong (mode_forms tree.now node desc.now)) }
{
    if desc.modes.is_none() {
        return Ok(None);
    }
    let allowed = numbers(alloc, tree, node, Prop::AllowedModes.name())?;
    if is_wrong(&allowed) {
        return Ok(Some(Prop::AllowedModes));
    }
    let initial = number(alloc, tree, node, Prop::InitialMode.name())?;
    if is_wrong(&initial) {
        return Ok(Some(Prop::InitialMode));
    }
    Ok(None)
}

/// The first property that couples the rail with others and has another form.
fn wrong_coupling(alloc: Global, tree: &Tree, node: u32) -> Result<Option<Prop>, AllocError>
    ensures { IfOk result (λ prop. prop ≡ first_wrong (coupling_forms tree.now node)) }
{
    let couples = cells(alloc, tree, node, Prop::CoupledWith.name())?;
    if is_wrong(&couples) {
        return Ok(Some(Prop::CoupledWith));
    }
    if is_wrong_spread(alloc, tree, node)? {
        return Ok(Some(Prop::MaxSpread));
    }
    Ok(None)
}
