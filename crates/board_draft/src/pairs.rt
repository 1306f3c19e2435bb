ghost use Rattle.std.specs.Prelude.{◌≡◌, ℕ, ◌<◌, ◌&&◌, ◌++◌, not, nat_eq, [], map, length, find, unwrap_or, slice_get, slice_index_or, IfOk, OnOk};
ghost use Rattle.std.specs.List.{list_all, range_with_len};
ghost use Rattle.std.specs.Option.{option_eq};
ghost use Rattle.board_checks.specs.Checks.{pairs_of};
ghost use Rattle.board_graph.specs.Graph.{IsGraph, count_of};
ghost use Rattle.board_graph.specs.Loops.{is_above};
ghost use Rattle.board_graph.specs.Order.{is_taken};
ghost use Rattle.board_draft.specs.Links.{have_same};
ghost use Rattle.board_draft.specs.Inside.Pairs.{names_in, group_in, spread_in};

use crate::couples::is_taken;
use board_graph::Graph;
use item_list::Items;
use std::alloc::{AllocError, Global};

/// All pairs of so many rails, by the first and then by the second.
pub(crate) fn pairs_of(alloc: Global, count: u16) -> Result<Vec<(u16, u16)>, AllocError>
    ensures { IfOk result (λ pairs. pairs.items ≡ pairs_of count) }
{
    let mut pairs = Vec::new(alloc);
    for first in 0..count {
        push_pairs(&mut pairs, first, count)?;
    }
    Ok(pairs)
}

/// Appends the pairs with this first rail.
fn push_pairs(pairs: &mut Vec<(u16, u16)>, first: u16, count: u16) -> Result<(), AllocError>
    ensures { OnOk result (pairs.new.items ≡ pairs.old.items ++ map (λ second. (first, second)) (range_with_len 0 count)) }
{
    for second in 0..count {
        pairs.push((first, second))?;
    }
    Ok(())
}

/// The first pair of which the first rail names the second, and the two name different groups.
pub(crate) fn one_way(named: &[Items<u16>], pairs: &[(u16, u16)]) -> Option<(u16, u16)>
    ensures { result ≡ find (λ pair. names_in named.now pair.0 pair.1 && not (have_same (group_in named.now pair.0) (group_in named.now pair.1))) pairs.now }
{
    pairs.iter().copied().find(|pair| names(named, pair.0, pair.1)
        && !are_one_group(named, pair.0, pair.1))
}

/// The first pair of which the first rail names the second, and the two state different spreads.
pub(crate) fn two_spreads(
    named: &[Items<u16>],
    spreads: &Items<Option<u32>>,
    pairs: &[(u16, u16)],
) -> Option<(u16, u16)>
    ensures { result ≡ find (λ pair. names_in named.now pair.0 pair.1 && not (option_eq nat_eq (spread_in spreads.now pair.0) (spread_in spreads.now pair.1))) pairs.now }
{
    pairs.iter().copied().find(|pair| names(named, pair.0, pair.1)
        && spread_at(spreads, pair.0) != spread_at(spreads, pair.1))
}

/// The first pair of which the first rail names the second, and the second is above the first.
pub(crate) fn coupled_supplier(
    alloc: Global,
    graph: &Graph,
    named: &[Items<u16>],
    pairs: &[(u16, u16)],
) -> Result<Option<(u16, u16)>, AllocError>
    requires graph { IsGraph graph.now }
    requires inside { (k : ℕ) → k < length pairs.now → (slice_index_or pairs.now k (0, 0)).0 < count_of graph.now }
    ensures { IfOk result (λ pair. pair ≡ find (λ pair. names_in named.now pair.0 pair.1 && is_above graph.now pair.1 pair.0) pairs.now) }
{
    for pair in pairs {
        let (lower, upper) = *pair;
        if names(named, lower, upper) && is_above(alloc, graph, upper, lower)? {
            return Ok(Some((lower, upper)));
        }
    }
    Ok(None)
}

/// Whether a rail is the supply of another, or a supply further up.
fn is_above(alloc: Global, graph: &Graph, upper: u16, lower: u16) -> Result<bool, AllocError>
    requires graph { IsGraph graph.now }
    requires inside { lower < count_of graph.now }
    ensures { IfOk result (λ above. above ≡ is_above graph.now upper lower) }
{
    let above = graph.above(alloc, lower)?;
    Ok(is_taken(above.as_slice(), upper))
}

/// The rails that a rail names.
fn named_by(named: &[Items<u16>], rail: u16) -> &[u16]
    ensures { result.now ≡ unwrap_or (slice_get named.now rail) [] }
{
    match named.get(usize::from(rail)) {
        Some(others) => others.as_slice(),
        None => &[],
    }
}

/// Whether the first rail names the second.
fn names(named: &[Items<u16>], first: u16, second: u16) -> bool
    ensures { result ≡ names_in named.now first second }
{
    is_taken(named_by(named, first), second)
}

/// Whether two rails name one group: themselves and those that they name are the same.
fn are_one_group(named: &[Items<u16>], first: u16, second: u16) -> bool
    ensures { result ≡ have_same (group_in named.now first) (group_in named.now second) }
{
    holds_group(named, second, first) && holds_group(named, first, second)
}

/// Whether a rail's group has another rail, and those that this one names.
fn holds_group(named: &[Items<u16>], group: u16, rail: u16) -> bool
    ensures { result ≡ list_all (is_taken (group_in named.now group)) (group_in named.now rail) }
{
    is_in_group(named, group, rail) && are_in_group(named, group, named_by(named, rail))
}

/// Whether all of these are a rail, or among those that it names.
fn are_in_group(named: &[Items<u16>], group: u16, others: &[u16]) -> bool
    ensures { result ≡ list_all (is_taken (group_in named.now group)) others.now }
{
    others.iter().all(|other| is_in_group(named, group, *other))
}

/// Whether a rail is this one, or one that it names.
fn is_in_group(named: &[Items<u16>], group: u16, rail: u16) -> bool
    ensures { result ≡ is_taken (group_in named.now group) rail }
{
    rail == group || names(named, group, rail)
}

/// The spread that a rail states.
fn spread_at(spreads: &Items<Option<u32>>, rail: u16) -> Option<u32>
    ensures { result ≡ spread_in spreads.now rail }
{
    match spreads.get(usize::from(rail)) {
        Some(spread) => *spread,
        None => None,
    }
}
