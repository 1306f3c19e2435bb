ghost use Rattle.std.specs.Prelude.{◌≡◌, ◌<◌, length, map, IfOk, IfSome};
ghost use Rattle.dts_nodes.specs.Use.{is_good, in_use, is_below_used, is_good_status};

use dts_tree::Tree;
use item_list::Items;
use std::alloc::{AllocError, Global};

/// Which nodes are in use, in tree order: those whose `status` is good, below nodes that are in
/// use. A node without a `status` is good; else it has to be the one string `"okay"` or `"ok"`.
pub fn in_use(alloc: Global, tree: &Tree) -> Result<Items<bool>, AllocError>
    ensures { IfOk result (λ flags. flags ≡ in_use tree.now) }
{
    let mut flags: Vec<bool> = Vec::with_capacity(alloc, tree.count() as usize)?;
    for node in 0..tree.count() {
        let below = is_below_used(flags.as_slice(), tree.parent(node));
        let good = below && is_good(alloc, tree, node)?;
        flags.push(good)?;
    }
    Ok(Items::from_vec(flags))
}

/// Whether a node is the root, or its parent is in use by the flags of the nodes before it.
fn is_below_used(flags: &[bool], parent: Option<u32>) -> bool
    requires { IfSome parent (λ parent. parent < length flags.now) }
    ensures { result ≡ is_below_used flags.now parent }
{
    match parent {
        Some(parent) => flags[parent as usize],
        None => true,
    }
}

/// Whether the `status` of a node is good.
pub fn is_good(alloc: Global, tree: &Tree, node: u32) -> Result<bool, AllocError>
    ensures { IfOk result (λ good. good ≡ is_good tree.now node) }
{
    if !tree.has(node, b"status") {
        return Ok(true);
    }
    match tree.strings(alloc, node, b"status")? {
        Some(strings) => Ok(is_good_status(strings.as_slice())),
        None => Ok(false),
    }
}

fn is_good_status(strings: &[Vec<u8>]) -> bool
    ensures { result ≡ is_good_status (map (λ s. s.items) strings.now) }
{
    match strings {
        [status] => status.as_slice() == b"okay".as_slice()
            || status.as_slice() == b"ok".as_slice(),
        _ => false,
    }
}
