ghost use Rattle.std.specs.Prelude.{◌≡◌, ◌≢◌, ◌≤◌, true, false, None, Some, map, length, IfOk, IfErr, OnOk};
ghost use Rattle.dts_tree.specs.Look.{target_of};
ghost use Rattle.board_nodes.specs.Rails.{seen};
ghost use Rattle.board_draft.specs.declared.fault.BoardFault.TheVariants.{NoSupply};
ghost use Rattle.board_draft.specs.Faults.{at_rail};
ghost use Rattle.board_draft.specs.Links.{supply_name, supply_form, rail_of_node, rail_of_cell, supply_of, lacks_supply};

use crate::fault::BoardFault;
use board_nodes::RailNode;
use dts_nodes::{Form, cell};
use dts_tree::{Cell, Tree};
use item_list::Items;
use std::alloc::{AllocError, Global};

/// The rail that supplies each rail, where it names one; or the first rail whose supply is no rail.
pub(crate) fn supplies_of(
    alloc: Global,
    tree: &Tree,
    rails: &[RailNode],
) -> Result<Items<Option<u16>>, BoardFault>
    requires { length rails.now ≤ 64 }
    ensures fault { IfErr result (λ fault. fault ≢ BoardFault.Memory → at_rail (map seen rails.now) (λ r rail. lacks_supply tree.now (map seen rails.now) rail) NoSupply ≡ Some fault) }
    ensures none { OnOk result (at_rail (map seen rails.now) (λ r rail. lacks_supply tree.now (map seen rails.now) rail) NoSupply ≡ None) }
    ensures supplies { IfOk result (λ supplies. supplies ≡ map (supply_of tree.now (map seen rails.now)) (map seen rails.now)) }
{
    let mut supplies = Vec::with_capacity(alloc, rails.len())?;
    for (r, rail) in rails.iter().enumerate() {
        let supply = supply_of(alloc, tree, rails, r as u16, rail)?;
        supplies.push(supply)?;
    }
    Ok(Items::from_vec(supplies))
}

/// The rail that supplies rail `r`, where it names one.
fn supply_of(
    alloc: Global,
    tree: &Tree,
    rails: &[RailNode],
    r: u16,
    rail: &RailNode,
) -> Result<Option<u16>, BoardFault>
    requires { length rails.now ≤ 64 }
    ensures fault { IfErr result (λ fault. fault ≢ BoardFault.Memory → fault ≡ BoardFault.NoSupply r × lacks_supply tree.now (map seen rails.now) (seen rail.now) ≡ true) }
    ensures none { OnOk result (lacks_supply tree.now (map seen rails.now) (seen rail.now) ≡ false) }
    ensures supply { IfOk result (λ supply. supply ≡ supply_of tree.now (map seen rails.now) (seen rail.now)) }
{
    match supply_form(alloc, tree, rail)? {
        Form::Is(cell) => match rail_of_cell(tree, rails, &cell) {
            Some(supply) => Ok(Some(supply)),
            None => Err(BoardFault::NoSupply(r)),
        },
        _ => Ok(None),
    }
}

/// What the node of a rail says of its supply, else what the node of its chip says.
pub(crate) fn supply_form(
    alloc: Global,
    tree: &Tree,
    rail: &RailNode,
) -> Result<Form<Cell>, AllocError>
    ensures { IfOk result (λ form. form ≡ supply_form tree.now (seen rail.now)) }
{
    let name = supply_name(alloc, rail)?;
    if tree.has(rail.node, name.as_slice()) {
        return cell(alloc, tree, rail.node, name.as_slice());
    }
    match rail.chip_node {
        Some(chip) => cell(alloc, tree, chip, name.as_slice()),
        None => Ok(Form::Absent),
    }
}

fn supply_name(alloc: Global, rail: &RailNode) -> Result<Items<u8>, AllocError>
    ensures { IfOk result (λ name. name ≡ supply_name (seen rail.now)) }
{
    let mut name = Vec::from_slice(alloc, rail.supply.as_str().as_bytes())?;
    name.extend_from_slice(b"-supply")?;
    Ok(Items::from_vec(name))
}

/// The rail that a cell stands for; of two with one node the first.
pub(crate) fn rail_of_cell(tree: &Tree, rails: &[RailNode], cell: &Cell) -> Option<u16>
    requires { length rails.now ≤ 64 }
    ensures { result ≡ rail_of_cell tree.now (map seen rails.now) cell.now }
{
    let node = tree.target(cell)?;
    rail_of_node(rails, node)
}

fn rail_of_node(rails: &[RailNode], node: u32) -> Option<u16>
    requires { length rails.now ≤ 64 }
    ensures { result ≡ rail_of_node (map seen rails.now) node }
{
    for (r, rail) in rails.iter().enumerate() {
        if rail.node == node {
            return Some(r as u16);
        }
    }
    None
}
