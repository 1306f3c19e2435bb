ghost use Rattle.std.specs.Prelude.{◌≡◌, ℕ, ◌<◌, ◌≤◌, ◌^◌, ◌++◌, length, nat_eq, IfOk, OnOk, slice_index};
ghost use Rattle.std.specs.List.{position_or_len};
ghost use Rattle.dts_tree.specs.Order.{in_tree_order};
ghost use Rattle.dts_tree.specs.Inside.Links.{listed};

use crate::tree::links::links_of;
use std::alloc::{AllocError, Global};

/// The numbers of all nodes in tree order, where the parent of each but the first has a lower number.
pub(crate) fn tree_order(alloc: Global, parents: &[u32]) -> Result<Vec<u32>, AllocError>
    requires some { 0 < length parents.now }
    requires few { length parents.now ≤ 2 ^ 32 }
    requires earlier { (j : ℕ) → 1 ≤ j → j < length parents.now → slice_index parents.now j < j }
    ensures { IfOk result (λ order. order.items ≡ in_tree_order parents.now) }
{
    let links = links_of(alloc, parents, 1, parents.len())?;
    let mut waiting = Vec::new(alloc);
    waiting.push(0)?;
    let mut order = Vec::with_capacity(alloc, parents.len())?;
    while let Some(node) = waiting.pop() {
        order.push(node)?;
        put(&mut waiting, links.next[node as usize])?;
        put(&mut waiting, links.first[node as usize])?;
    }
    Ok(order)
}

fn put(waiting: &mut Vec<u32>, node: Option<u32>) -> Result<(), AllocError>
    ensures { OnOk result (waiting.new.items ≡ waiting.old.items ++ listed node) }
{
    if let Some(node) = node {
        waiting.push(node)?;
    }
    Ok(())
}

/// Where each number below `count` stands first in the order, and the order's length for one that
/// doesn't.
pub(crate) fn ranks_of(alloc: Global, order: &[u32], count: usize) -> Result<Vec<u32>, AllocError>
    requires { length order.now < 2 ^ 32 }
    ensures long { IfOk result (λ ranks. length ranks.items ≡ count) }
    ensures ranks { IfOk result (λ ranks. (k : ℕ) → k < count → slice_index ranks.items k ≡ position_or_len (nat_eq k) order.now) }
{
    let mut ranks = vec![in alloc; order.len() as u32; count]?;
    let mut at = order.len();
    while at > 0 {
        at -= 1;
        let node = order[at] as usize;
        if node < count {
            ranks[node] = at as u32;
        }
    }
    Ok(ranks)
}
