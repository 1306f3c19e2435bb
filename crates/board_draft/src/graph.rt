ghost use Rattle.std.specs.Prelude.{◌≡◌, ◌≤◌, map, length, fold, min, slice_get, IfOk};
ghost use Rattle.std.specs.List.{enumerate_from};
ghost use Rattle.board.specs.Valid.{is_span};
ghost use Rattle.constraints.specs.Node.{constraints_at};
ghost use Rattle.board_nodes.specs.Rails.{seen};
ghost use Rattle.board_draft.specs.Links.{named_by, supply_of, graph_of};
ghost use Rattle.board_draft.specs.Inside.Graph.{room_at, is_held_by};

use board::Constraints;
use board_graph::Graph;
use board_nodes::RailNode;
use dts_tree::Tree;
use item_list::Items;
use std::alloc::{AllocError, Global};

/// How the rails hang together.
pub(crate) fn graph_of(
    alloc: Global,
    tree: &Tree,
    rails: &[RailNode],
    limits: &[Constraints],
    supplies: &Items<Option<u16>>,
    named: &[Items<u16>],
) -> Result<Graph, AllocError>
    requires few { length rails.now ≤ 64 }
    requires limits { limits.now ≡ map (λ rail. constraints_at tree.now rail.node rail.desc) (map seen rails.now) }
    requires supplies { supplies.now ≡ map (supply_of tree.now (map seen rails.now)) (map seen rails.now) }
    requires named { named.now ≡ map (named_by tree.now (map seen rails.now)) (map seen rails.now) }
    ensures { IfOk result (λ graph. graph ≡ graph_of tree.now (map seen rails.now)) }
{
    let _tree = tree;
    let supply = Items::from_vec(Vec::from_slice(alloc, supplies.as_slice())?);
    let group = groups_of(alloc, named)?;
    let link = links_of(alloc, rails, limits, supplies)?;
    Ok(Graph {
        supply,
        group,
        link,
    })
}

/// The number of each rail's group: that of its least rail.
fn groups_of(alloc: Global, named: &[Items<u16>]) -> Result<Items<u16>, AllocError>
    requires { length named.now ≤ 64 }
    ensures { IfOk result (λ groups. groups ≡ map (λ named. fold min named.0 named.1) (enumerate_from 0 named.now)) }
{
    let mut groups = Vec::with_capacity(alloc, named.len())?;
    for (r, others) in named.iter().enumerate() {
        groups.push(least(r as u16, others.as_slice()))?;
    }
    Ok(Items::from_vec(groups))
}

/// The least of a number and others.
fn least(number: u16, others: &[u16]) -> u16
    ensures { result ≡ fold min number others.now }
{
    let mut least = number;
    for other in others {
        least = least.min(*other);
    }
    least
}

/// Whether each rail ties its supply by a dropout.
fn links_of(
    alloc: Global,
    rails: &[RailNode],
    limits: &[Constraints],
    supplies: &Items<Option<u16>>,
) -> Result<Items<bool>, AllocError>
    ensures { IfOk result (λ links. links ≡ map (λ rail. is_held_by limits.now (slice_get supplies.now rail.0) rail.1.desc.dropout) (enumerate_from 0 rails.now)) }
{
    let mut links = Vec::with_capacity(alloc, rails.len())?;
    for (r, rail) in rails.iter().enumerate() {
        let linked = is_held_by(limits, supplies.get(r).copied(), rail.desc.dropout);
        links.push(linked)?;
    }
    Ok(Items::from_vec(links))
}

/// Whether there is a dropout, and a supply whose bounds leave it room.
fn is_held_by(limits: &[Constraints], supply: Option<Option<u16>>, dropout: u32) -> bool
    ensures { result ≡ is_held_by limits.now supply dropout }
{
    let Some(Some(supply)) = supply else {
        return false;
    };
    dropout != 0 && has_room(limits, supply)
}

/// Whether the bounds of a rail leave it room.
fn has_room(limits: &[Constraints], rail: u16) -> bool
    ensures { result ≡ room_at limits.now rail }
{
    match limits.get(usize::from(rail)) {
        Some(limits) => is_changeable(limits),
        None => false,
    }
}

/// Whether the bounds leave a rail room.
pub(crate) fn is_changeable(limits: &Constraints) -> bool
    ensures { result ≡ is_span limits.now.bounds }
{
    match limits.bounds {
        Some((least, greatest)) => least < greatest,
        None => false,
    }
}
