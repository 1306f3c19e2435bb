ghost use Rattle.std.specs.Prelude.{IfOk};
ghost use Rattle.board_nodes.specs.Inside.Outline.{IsOutline};

use crate::siblings::{Siblings, siblings_of};
use dts_nodes::in_use;
use dts_tree::Tree;
use item_list::Items;
use std::alloc::{AllocError, Global};

/// Which nodes of a tree are in use, and the children of each.
pub(crate) struct Outline {
    pub(crate) used: Items<bool>,
    pub(crate) siblings: Siblings,
}

impl Drop for Outline {
    /// Ends all parts, so that an owner's code has one call for it.
    fn drop(self) {
        let Outline {
            used: _,
            siblings: _,
        } = self;
    }
}

/// The outline of a tree.
pub(crate) fn outline_of(alloc: Global, tree: &Tree) -> Result<Outline, AllocError>
    ensures { IfOk result (IsOutline tree.now) }
{
    let used = in_use(alloc, tree)?;
    let siblings = siblings_of(alloc, tree)?;
    Ok(Outline { used, siblings })
}

impl Outline {
    ghost use Rattle.std.specs.Prelude.{◌≡◌, ◌<◌, false, ◌&&◌, length, slice_index_or, IfSome};
    ghost use Rattle.std.specs.Str.{bytes_eq};
    ghost use Rattle.dts_tree.specs.Look.{bare};
    ghost use Rattle.dts_nodes.specs.Use.{is_used, good_child_of};
    ghost use Rattle.board_nodes.specs.Inside.Outline.{IsOutline, IsThere};

    /// Whether a node is in use.
    pub(crate) fn has(&self, node: u32) -> bool
        requires { node < length self.now.used }
        ensures { result ≡ slice_index_or self.now.used node false }
    {
        self.used.as_slice()[node as usize]
    }

    /// The child of a node in use that has this name and is in use.
    pub(crate) fn child(&self, tree: &Tree, parent: u32, name: &[u8]) -> Option<u32>
        requires outline { IsOutline tree.now self.now }
        requires parent { IsThere tree.now parent }
        ensures child { result ≡ good_child_of tree.now parent name.now }
        ensures there { IfSome result (IsThere tree.now) }
    {
        let mut at = self.siblings.first[parent as usize];
        while let Some(node) = at {
            if self.is_named(tree, node, name) {
                return Some(node);
            }
            at = self.siblings.next[node as usize];
        }
        None
    }

    /// Whether a node is in use and has this name.
    fn is_named(&self, tree: &Tree, node: u32, name: &[u8]) -> bool
        requires outline { IsOutline tree.now self.now }
        requires node { node < length tree.now }
        ensures { result ≡ (is_used tree.now node && bytes_eq name.now (slice_index_or tree.now node bare).name) }
    {
        self.has(node) && name == tree.name(node)
    }
}
