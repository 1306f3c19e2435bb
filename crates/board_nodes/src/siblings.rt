ghost use Rattle.std.specs.Prelude.{IfOk};
ghost use Rattle.board_nodes.specs.Inside.Siblings.{IsSiblings};

use dts_tree::Tree;
use std::alloc::{AllocError, Global};

/// Of each node its first child, and the next child of its parent.
#[derive(Drop)]
pub(crate) struct Siblings {
    pub(crate) first: Vec<Option<u32>>,
    pub(crate) next: Vec<Option<u32>>,
}

/// The children of all nodes of a tree.
pub(crate) fn siblings_of(alloc: Global, tree: &Tree) -> Result<Siblings, AllocError>
    ensures { IfOk result (λ siblings. IsSiblings tree.now siblings.first.items siblings.next.items 0) }
{
    let count = tree.count();
    let mut first = vec![in alloc; None; count as usize]?;
    let mut next = vec![in alloc; None; count as usize]?;
    let mut node = count;
    while node > 0 {
        node -= 1;
        if let Some(parent) = tree.parent(node) {
            next[node as usize] = first[parent as usize];
            first[parent as usize] = Some(node);
        }
    }
    Ok(Siblings { first, next })
}
