ghost use Rattle.std.specs.Prelude.{◌≡◌, ◌≤◌, map, length, IfOk};
ghost use Rattle.std.specs.List.{enumerate_from};
ghost use Rattle.std.specs.Option.{option_map_or, unwrap_or};
ghost use Rattle.constraints.specs.Node.{constraints_at};
ghost use Rattle.board_nodes.specs.Rails.{seen};
ghost use Rattle.board_draft.specs.Links.{graph_of};
ghost use Rattle.board_draft.specs.Sketch.{rail_at, trimmed};
ghost use Rattle.board_draft.specs.Inside.Build.{rail_from};

use crate::graph::is_changeable;
use board::{Constraints, Rail, RailId};
use board_graph::Graph;
use board_nodes::RailNode;
use dts_tree::Tree;
use item_list::Items;
use std::alloc::{AllocError, Global};

/// The rails of the board.
pub(crate) fn rails_of(
    alloc: Global,
    tree: &Tree,
    mut nodes: Vec<RailNode>,
    limits: &[Constraints],
    graph: &Graph,
) -> Result<Items<Rail>, AllocError>
    requires few { length nodes.items ≤ 64 }
    requires limits { limits.now ≡ map (λ rail. constraints_at tree.now rail.node rail.desc) (map seen nodes.items) }
    requires graph { graph.now ≡ graph_of tree.now (map seen nodes.items) }
    ensures { IfOk result (λ rails. map trimmed rails ≡ map (λ rail. rail_at tree.now (map seen nodes.items) rail.0 rail.1) (enumerate_from 0 (map seen nodes.items))) }
{
    let _tree = tree;
    let mut rails = Vec::with_capacity(alloc, nodes.len())?;
    while let Some(node) = nodes.pop() {
        let r = nodes.len();
        let supply = graph.supply.as_slice()[r];
        let group = graph.group.as_slice()[r];
        rails.push(rail_from(node, &limits[r], supply, group))?;
    }
    rails.reverse();
    Ok(Items::from_vec(rails))
}

/// A rail, by what its node and the graph say.
fn rail_from(node: RailNode, limits: &Constraints, supply: Option<u16>, group: u16) -> Rail
    ensures { trimmed result ≡ rail_from (seen node) limits.now supply group }
{
    let RailNode { name, desc, .. } = node;
    Rail {
        name,
        desc,
        limits: *limits,
        supply: supply.map(RailId),
        group,
        changeable: is_changeable(limits),
        kept_uv: least_bound(limits),
    }
}

/// The least bound, or 0 where there are no bounds.
fn least_bound(limits: &Constraints) -> u32
    ensures { result ≡ option_map_or (λ bounds. bounds.0) limits.now.bounds 0 }
{
    match limits.bounds {
        Some((least, _)) => least,
        None => 0,
    }
}

/// The spread of each rail's group, at the number of its least rail.
pub(crate) fn spreads_from(alloc: Global, stated: &[Option<u32>]) -> Result<Items<u32>, AllocError>
    ensures { IfOk result (λ spreads. spreads ≡ map (λ spread. unwrap_or spread 0) stated.now) }
{
    let mut spreads = Vec::with_capacity(alloc, stated.len())?;
    for spread in stated {
        spreads.push(spread.unwrap_or(0))?;
    }
    Ok(Items::from_vec(spreads))
}
