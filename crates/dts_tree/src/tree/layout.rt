ghost use Rattle.std.specs.Prelude.{ℕ, ◌<◌, ◌≤◌, ◌∷◌, length, map, IfOk, slice_index_or};
ghost use Rattle.dts_tree.specs.Inside.Layout.{IsLayout};

use crate::store::Opened;
use crate::tree::order::{ranks_of, tree_order};
use crate::tree::owners::parents_of;
use name_map::NameList;
use std::alloc::{AllocError, Global};

/// The numbers of the nodes in tree order, and where each of them stands there.
#[derive(Drop)]
pub(crate) struct Layout {
    pub(crate) order: Vec<u32>,
    pub(crate) ranks: Vec<u32>,
}

pub(crate) fn layout_of(alloc: Global, children: &NameList<Opened>) -> Result<Layout, AllocError>
    requires few { length children.now < 4294967295 }
    requires earlier { (k : ℕ) → k < length children.now → slice_index_or (map (λ e. e.0.0) children.now) k 0 ≤ k }
    ensures { IfOk result (λ layout. IsLayout (0 ∷ map (λ e. e.0.0) children.now) layout.order.items layout.ranks.items) }
{
    let parents = parents_of(alloc, children)?;
    let order = tree_order(alloc, parents.as_slice())?;
    let ranks = ranks_of(alloc, order.as_slice(), parents.len())?;
    Ok(Layout { order, ranks })
}
