ghost use Rattle.std.specs.Prelude.{◌<◌, ◌≤◌, ◌^◌, ℕ, length, IfOk, slice_index};
ghost use Rattle.dts_tree.specs.Inside.Links.{Linked};

use std::alloc::{AllocError, Global};

/// Of each owner the first item that it owns, and of each item the next of the same owner.
#[derive(Drop)]
pub(crate) struct Links {
    pub(crate) first: Vec<Option<u32>>,
    pub(crate) next: Vec<Option<u32>>,
}

/// The links of the items from number `from` on, whose owners are below `count`.
pub(crate) fn links_of(
    alloc: Global,
    owners: &[u32],
    from: usize,
    count: usize,
) -> Result<Links, AllocError>
    requires inside { from ≤ length owners.now }
    requires few { length owners.now ≤ 2 ^ 32 }
    requires owned { (j : ℕ) → from ≤ j → j < length owners.now → slice_index owners.now j < count }
    ensures { IfOk result (λ links. Linked owners.now count links.first.items links.next.items from) }
{
    let mut first = vec![in alloc; None; count]?;
    let mut next = vec![in alloc; None; owners.len()]?;
    let mut k = owners.len();
    while k > from {
        k -= 1;
        let owner = owners[k] as usize;
        next[k] = first[owner];
        first[owner] = Some(k as u32);
    }
    Ok(Links { first, next })
}
