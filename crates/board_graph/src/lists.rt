ghost use Rattle.std.specs.Prelude.{◌≡◌, ◌<◌, IfOk, length, slice_index_or};
ghost use Rattle.board_graph.specs.Inside.Lists.{turned, AreBelow, AreLists};

use item_list::Items;
use std::alloc::{AllocError, Global};

/// For each number below the count the list of the second numbers of the pairs that have it first.
pub(crate) fn lists(
    alloc: Global,
    count: usize,
    pairs: &[(u16, u16)],
) -> Result<Vec<Items<u16>>, AllocError>
    requires { AreBelow count pairs.now }
    ensures { IfOk result (λ lists. AreLists count pairs.now lists.items) }
{
    let mut lists = Vec::new(alloc);
    for _ in 0..count {
        lists.push(Items::new(alloc))?;
    }
    for pair in pairs {
        lists[pair.0 as usize].push(pair.1)?;
    }
    Ok(lists)
}

/// The pairs the other way round.
pub(crate) fn turned(alloc: Global, pairs: &[(u16, u16)]) -> Result<Items<(u16, u16)>, AllocError>
    ensures { IfOk result (λ others. others ≡ turned pairs.now) }
{
    let mut others = Items::new(alloc);
    for pair in pairs {
        others.push((pair.1, pair.0))?;
    }
    Ok(others)
}
