ghost use Rattle.std.specs.Prelude.{◌≡◌, ℕ, ◌<◌, length, IfOk, OnOk, Some, None, if◌then◌else◌};
ghost use Rattle.std.specs.BTreeMap.{get};
ghost use Rattle.std.specs.Option.{option_or};
ghost use Rattle.std.specs.Ordering.{nat_cmp};
ghost use Rattle.dts_nodes.specs.Use.{good_child_of};
ghost use Rattle.constraints.specs.Sleeps.{state_nodes};
ghost use Rattle.constraints.specs.StateNodes.{is_good_child, nodes_below};

use dts_nodes::is_good;
use dts_tree::Tree;
use ordered_map::place_or;
use std::alloc::{AllocError, Global};
use std::collections::BTreeMap;

/// The nodes of a tree that say what a rail is to be while the board is suspended, by the nodes that they
/// are children of: those named `regulator-state-standby`, `-mem` and `-disk` with a good status.
pub struct StateNodes {
    standby: BTreeMap<u32, u32>,
    mem: BTreeMap<u32, u32>,
    disk: BTreeMap<u32, u32>,
}

impl Drop for StateNodes {
    /// Ends all parts, so that an owner's code has one call for it.
    fn drop(self) {
        let StateNodes {
            standby: _,
            mem: _,
            disk: _,
        } = self;
    }
}

impl StateNodes {
    /// Those of all nodes of the tree, which is walked once for each name.
    pub fn find(alloc: Global, tree: &Tree) -> Result<StateNodes, AllocError>
        ensures { IfOk result (λ found. (node : ℕ) → nodes_below found node ≡ state_nodes tree.now node) }
    {
        let standby = good_children(alloc, tree, b"regulator-state-standby")?;
        let mem = good_children(alloc, tree, b"regulator-state-mem")?;
        let disk = good_children(alloc, tree, b"regulator-state-disk")?;
        Ok(StateNodes { standby, mem, disk })
    }

    /// Those below a node: for standby, mem and disk.
    pub fn below(&self, node: u32) -> [Option<u32>; 3]
        ensures { result ≡ nodes_below self.now node }
    {
        [
            self.standby.get(&node).copied(),
            self.mem.get(&node).copied(),
            self.disk.get(&node).copied(),
        ]
    }
}

/// Of each node the first child of this name that has a good status, where there is one.
fn good_children(alloc: Global, tree: &Tree, name: &[u8]) -> Result<BTreeMap<u32, u32>, AllocError>
    ensures { IfOk result (λ children. (parent : ℕ) → get nat_cmp children parent ≡ good_child_of tree.now parent name.now) }
{
    let mut children = BTreeMap::new(alloc);
    for node in 0..tree.count() {
        keep_child(alloc, tree, node, name, &mut children)?;
    }
    Ok(children)
}

/// The node is the child of its parent, where it has the name and a good status, unless there is one.
fn keep_child(
    alloc: Global,
    tree: &Tree,
    node: u32,
    name: &[u8],
    children: &mut BTreeMap<u32, u32>,
) -> Result<(), AllocError>
    requires { node < length tree.now }
    ensures { OnOk result ((parent : ℕ) → get nat_cmp children.new parent
        ≡ option_or (get nat_cmp children.old parent) (if is_good_child tree.now parent name.now node then Some node else None)) }
{
    if let Some(parent) = tree.parent(node)
        && name == tree.name(node)
        && is_good(alloc, tree, node)?
    {
        place_or(children, parent, node)?;
    }
    Ok(())
}
