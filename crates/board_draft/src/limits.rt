ghost use Rattle.std.specs.Prelude.{◌≡◌, ◌≢◌, ◌≤◌, None, Some, map, length, IfOk, IfErr, OnOk};
ghost use Rattle.board_nodes.specs.Rails.{seen};
ghost use Rattle.constraints.specs.Node.{constraints_at};
ghost use Rattle.constraints.specs.Sleeps.{state_nodes};
ghost use Rattle.board_draft.specs.Faults.{rail_fault, rail_faults};

use crate::fault::BoardFault;
use crate::supply::supply_form;
use board::Constraints;
use board_nodes::RailNode;
use constraints::{Prop, StateNodes, constraints_with, wrong_form};
use dts_nodes::Form;
use dts_tree::Tree;
use item_list::Items;
use std::alloc::Global;

/// What is asked of each rail, or the first fault of the first rail that has one.
pub(crate) fn limits_of(
    alloc: Global,
    tree: &Tree,
    rails: &[RailNode],
) -> Result<Items<Constraints>, BoardFault>
    requires { length rails.now ≤ 64 }
    ensures fault { IfErr result (λ fault. fault ≢ BoardFault.Memory → rail_faults tree.now (map seen rails.now) ≡ Some fault) }
    ensures none { OnOk result (rail_faults tree.now (map seen rails.now) ≡ None) }
    ensures limits { IfOk result (λ limits. limits ≡ map (λ rail. constraints_at tree.now rail.node rail.desc) (map seen rails.now)) }
{
    let states = StateNodes::find(alloc, tree)?;
    let mut limits = Vec::with_capacity(alloc, rails.len())?;
    for (r, rail) in rails.iter().enumerate() {
        let below = states.below(rail.node);
        let asked = limits_at(alloc, tree, below, r as u16, rail)?;
        limits.push(asked)?;
    }
    Ok(Items::from_vec(limits))
}

/// What is asked of rail `r`, or its first fault. The form of its supply is looked at behind all others.
fn limits_at(
    alloc: Global,
    tree: &Tree,
    states: [Option<u32>; 3],
    r: u16,
    rail: &RailNode,
) -> Result<Constraints, BoardFault>
    requires { states ≡ state_nodes tree.now rail.now.node }
    ensures fault { IfErr result (λ fault. fault ≢ BoardFault.Memory → rail_fault tree.now r (seen rail.now) ≡ Some fault) }
    ensures none { OnOk result (rail_fault tree.now r (seen rail.now) ≡ None) }
    ensures limits { IfOk result (λ limits. limits ≡ constraints_at tree.now rail.now.node rail.now.desc) }
{
    if let Some(prop) = wrong_form(alloc, tree, rail.node, states, &rail.desc)? {
        return Err(BoardFault::BadCells { rail: r, prop });
    }
    if let Form::Wrong = supply_form(alloc, tree, rail)? {
        return Err(BoardFault::BadCells {
            rail: r,
            prop: Prop::Supply,
        });
    }
    let fixed = rail.chip_node.is_none();
    let limits = constraints_with(alloc, tree, rail.node, states, r, &rail.desc, fixed)?;
    Ok(limits)
}
