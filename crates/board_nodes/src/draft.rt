ghost use Rattle.std.specs.Prelude.{◌≡◌, ◌<◌, ◌≤◌, ◌++◌, map, length, OnOk, IfOk};
ghost use Rattle.std.specs.List.{AllByRecursion, enumerate_from, filter_map};
ghost use Rattle.pmic_tables.specs.ChipDesc.{seen};
ghost use Rattle.board_nodes.specs.Rails.{fixed_rail, fixed_desc, fixed_value};
ghost use Rattle.board_nodes.specs.Inside.Drafts.{found_in, found_with, found_below};
ghost use Rattle.board_nodes.specs.Inside.Outline.{IsOutline, IsThere};

use crate::names::name_of;
use crate::outline::Outline;
use board::{Desc, Name, Table};
use chip_regs::Field;
use dts_nodes::{Form, number};
use dts_tree::Tree;
use item_list::Items;
use pmic_tables::ChipRail;
use std::alloc::{AllocError, Global};
use voltage_table::VoltList;

/// A rail whose name may be too long, or be that of another.
#[derive(Drop)]
pub(crate) struct Draft {
    pub(crate) name: String,
    pub(crate) node: u32,
    pub(crate) chip_node: Option<u32>,
    pub(crate) supply: Name,
    pub(crate) desc: Desc,
}

/// The rails of a chip that stand below `regulators`, behind those that are there.
pub(crate) fn put_rails(
    alloc: Global,
    tree: &Tree,
    outline: &Outline,
    chip_node: u32,
    regulators: u32,
    rails: Items<ChipRail>,
    drafts: &mut Items<Draft>,
) -> Result<(), AllocError>
    requires outline { IsOutline tree.now outline.now }
    requires regulators { IsThere tree.now regulators }
    ensures { OnOk result (map found_in drafts.new ≡ map found_in drafts.old ++ filter_map (found_below tree.now chip_node regulators) (map seen rails)) }
{
    for rail in rails.into_vec() {
        let place = outline.child(tree, regulators, rail.node.as_str().as_bytes());
        if let Some(node) = place {
            drafts.push(chip_draft(alloc, tree, chip_node, node, rail)?)?;
        }
    }
    Ok(())
}

/// The rail of a chip, at its node.
fn chip_draft(
    alloc: Global,
    tree: &Tree,
    chip_node: u32,
    node: u32,
    rail: ChipRail,
) -> Result<Draft, AllocError>
    requires { node < length tree.now }
    ensures { IfOk result (λ draft. found_in draft ≡ found_with tree.now chip_node (seen rail) node) }
{
    let name = name_of(alloc, tree, node)?;
    let ChipRail {
        node: _,
        supply,
        desc,
    } = rail;
    Ok(Draft {
        name,
        node,
        chip_node: Some(chip_node),
        supply,
        desc,
    })
}

/// The fixed rails, on the chip of this number, behind those that are there.
pub(crate) fn put_fixed(
    alloc: Global,
    tree: &Tree,
    chip: u8,
    nodes: &[u32],
    drafts: &mut Items<Draft>,
) -> Result<(), AllocError>
    requires few { length nodes.now ≤ 64 }
    requires inside { AllByRecursion (IsThere tree.now) nodes.now }
    ensures { OnOk result (map found_in drafts.new ≡ map found_in drafts.old ++ map (λ fixed. fixed_rail tree.now chip fixed.0 fixed.1) (enumerate_from 0 nodes.now)) }
{
    let mut register = 0;
    for node in nodes {
        drafts.push(fixed_draft(alloc, tree, chip, register, *node)?)?;
        register += 1;
    }
    Ok(())
}

/// A fixed rail, with its on bit in this register.
fn fixed_draft(
    alloc: Global,
    tree: &Tree,
    chip: u8,
    register: u8,
    node: u32,
) -> Result<Draft, AllocError>
    requires { node < length tree.now }
    ensures { IfOk result (λ draft. found_in draft ≡ fixed_rail tree.now chip register node) }
{
    let name = name_of(alloc, tree, node)?;
    let value = fixed_value(alloc, tree, node)?;
    Ok(Draft {
        name,
        node,
        chip_node: None,
        supply: Name::from("vin").unwrap(),
        desc: fixed_desc(chip, register, value),
    })
}

/// The value of a fixed rail in µV: its least bound, or 0.
fn fixed_value(alloc: Global, tree: &Tree, node: u32) -> Result<u32, AllocError>
    ensures { IfOk result (λ value. value ≡ fixed_value tree.now node) }
{
    match number(alloc, tree, node, b"regulator-min-microvolt")? {
        Form::Is(value) => Ok(value),
        Form::Absent | Form::Wrong => Ok(0),
    }
}

/// A rail of one value in µV, whose on bit is bit 0 of a register.
fn fixed_desc(chip: u8, register: u8, value: u32) -> Desc
    ensures { result ≡ fixed_desc chip register value }
{
    Desc {
        table: Table::List(VoltList::new(&[value]).unwrap()),
        selector: None,
        enable: Field {
            chip,
            reg: register,
            mask: 1,
            shift: 0,
        },
        modes: None,
        greatest: [0; 4],
        suspend_enable: None,
        suspend_selector: None,
        dropout: 0,
        ramp: 0,
        enable_time: 0,
    }
}
