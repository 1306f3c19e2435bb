ghost use Rattle.std.specs.Prelude.{◌≡◌, ◌<◌, [], ◌∷◌, ◌++◌, length, IfOk, OnOk, if◌then◌else◌};
ghost use Rattle.board_nodes.specs.Chips.{chip_nodes, fixed_nodes, is_unknown_chip, unknown_chip};
ghost use Rattle.board_nodes.specs.Inside.Outline.{IsOutline};

use crate::compatible::{is_chip, is_fixed};
use crate::outline::Outline;
use dts_tree::Tree;
use item_list::Items;
use std::alloc::{AllocError, Global};

/// The nodes that are chips, in tree order.
pub(crate) fn chip_nodes(
    alloc: Global,
    tree: &Tree,
    outline: &Outline,
) -> Result<Items<u32>, AllocError>
    requires { IsOutline tree.now outline.now }
    ensures { IfOk result (λ chips. chips ≡ chip_nodes tree.now) }
{
    let mut chips = Items::new(alloc);
    for node in 0..tree.count() {
        let known = outline.has(node) && is_chip(alloc, tree, node)?;
        keep_if(known, node, &mut chips)?;
    }
    Ok(chips)
}

/// The nodes that are fixed rails, in tree order.
pub(crate) fn fixed_nodes(
    alloc: Global,
    tree: &Tree,
    outline: &Outline,
) -> Result<Items<u32>, AllocError>
    requires { IsOutline tree.now outline.now }
    ensures { IfOk result (λ fixed. fixed ≡ fixed_nodes tree.now) }
{
    let mut fixed = Items::new(alloc);
    for node in 0..tree.count() {
        let is_rail = outline.has(node) && is_fixed(alloc, tree, node)?;
        keep_if(is_rail, node, &mut fixed)?;
    }
    Ok(fixed)
}

/// The node comes last, if it is to be kept.
fn keep_if(kept: bool, node: u32, nodes: &mut Items<u32>) -> Result<(), AllocError>
    ensures { OnOk result (nodes.new ≡ nodes.old ++ (if kept then node ∷ [] else [])) }
{
    if kept {
        nodes.push(node)?;
    }
    Ok(())
}

/// Where the first node stands that has rails below it and is no chip.
pub(crate) fn unknown_chip(
    alloc: Global,
    tree: &Tree,
    outline: &Outline,
) -> Result<Option<u32>, AllocError>
    requires { IsOutline tree.now outline.now }
    ensures { IfOk result (λ at. at ≡ unknown_chip tree.now) }
{
    for node in 0..tree.count() {
        if is_unknown_chip(alloc, tree, outline, node)? {
            return Ok(Some(tree.at(node)));
        }
    }
    Ok(None)
}

/// Whether a node has rails below it and is no chip.
fn is_unknown_chip(
    alloc: Global,
    tree: &Tree,
    outline: &Outline,
    node: u32,
) -> Result<bool, AllocError>
    requires outline { IsOutline tree.now outline.now }
    requires node { node < length tree.now }
    ensures { IfOk result (λ unknown. unknown ≡ is_unknown_chip tree.now node) }
{
    if !outline.has(node) {
        return Ok(false);
    }
    let has_rails = outline.child(tree, node, b"regulators").is_some();
    Ok(has_rails && !is_chip(alloc, tree, node)?)
}
