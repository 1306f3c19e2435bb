ghost use Rattle.std.specs.Prelude.{◌≡◌, ◌≢◌, ◌≤◌, None, Some, map, length, IfErr, IfOk, OnOk};
ghost use Rattle.board_graph.specs.Graph.{IsGraph};
ghost use Rattle.board_graph.specs.Order.{IsOrder};
ghost use Rattle.constraints.specs.Coupling.{stated_spread};
ghost use Rattle.constraints.specs.Node.{constraints_at};
ghost use Rattle.board_nodes.specs.Rails.{seen};
ghost use Rattle.board_draft.specs.Faults.{group_fault, link_fault};
ghost use Rattle.board_draft.specs.Links.{named_by, graph_of};
ghost use Rattle.board_draft.specs.Inside.Turns.{IsSupplyFault, AreTurns};

use crate::couples::couples_of;
use crate::fault::BoardFault;
use crate::graph::graph_of;
use crate::limits::limits_of;
use crate::pairs::{coupled_supplier, one_way, pairs_of, two_spreads};
use crate::spread::spreads_of;
use crate::supply::supplies_of;
use board::Constraints;
use board_graph::{Graph, LoopFault};
use board_nodes::RailNode;
use dts_tree::Tree;
use item_list::Items;
use std::alloc::Global;

/// What the nodes of the rails say, and the order in which the rails come up.
#[derive(Drop)]
pub(crate) struct Parts {
    pub(crate) limits: Items<Constraints>,
    pub(crate) graph: Graph,
    pub(crate) spreads: Items<Option<u32>>,
    pub(crate) order: Items<u16>,
}

/// The parts, or the first thing that is wrong with a rail's node or with the links between rails.
pub(crate) fn parts_of(alloc: Global, tree: &Tree, rails: &[RailNode]) -> Result<Parts, BoardFault>
    requires { length rails.now ≤ 64 }
    ensures fault { IfErr result (λ fault. fault ≢ BoardFault.Memory → link_fault tree.now (map seen rails.now) ≡ Some fault) }
    ensures none { OnOk result (link_fault tree.now (map seen rails.now) ≡ None) }
    ensures limits { IfOk result (λ parts. parts.limits ≡ map (λ rail. constraints_at tree.now rail.node rail.desc) (map seen rails.now)) }
    ensures graph { IfOk result (λ parts. parts.graph ≡ graph_of tree.now (map seen rails.now)) }
    ensures spreads { IfOk result (λ parts. parts.spreads ≡ map (λ rail. stated_spread tree.now rail.node) (map seen rails.now)) }
    ensures order { IfOk result (λ parts. IsOrder (graph_of tree.now (map seen rails.now)) parts.order) }
{
    let limits = limits_of(alloc, tree, rails)?;
    let supplies = supplies_of(alloc, tree, rails)?;
    let couples = couples_of(alloc, tree, rails)?;
    let graph = graph_of(
        alloc,
        tree,
        rails,
        limits.as_slice(),
        &supplies,
        couples.named.as_slice(),
    )?;
    let turns = turns_of(alloc, &graph)?;
    if let Some(r) = couples.bad {
        return Err(BoardFault::NoCouple(r));
    }
    let spreads = spreads_checked(alloc, tree, rails, &graph, couples.named.as_slice())?;
    match turns {
        Turns::Order(order) => Ok(Parts {
            limits,
            graph,
            spreads,
            order,
        }),
        Turns::Loop(r) => Err(BoardFault::GroupLoop(r)),
    }
}

/// How the rails come up, or the least rail on a loop of groups.
#[derive(Drop)]
enum Turns {
    Order(Items<u16>),
    Loop(u16),
}

/// The turns of the rails, or the least rail that is a supply of its own.
fn turns_of(alloc: Global, graph: &Graph) -> Result<Turns, BoardFault>
    requires { IsGraph graph.now }
    ensures fault { IfErr result (λ fault. fault ≢ BoardFault.Memory → IsSupplyFault graph.now fault) }
    ensures turns { IfOk result (AreTurns graph.now) }
{
    match graph.order(alloc) {
        Ok(order) => Ok(Turns::Order(order)),
        Err(LoopFault::Group(r)) => Ok(Turns::Loop(r)),
        Err(LoopFault::Supply(r)) => Err(BoardFault::SupplyLoop(r)),
        Err(LoopFault::Memory) => Err(BoardFault::Memory),
    }
}

/// The spreads that the rails state, or the first thing that is wrong with two rails that are coupled.
fn spreads_checked(
    alloc: Global,
    tree: &Tree,
    rails: &[RailNode],
    graph: &Graph,
    named: &[Items<u16>],
) -> Result<Items<Option<u32>>, BoardFault>
    requires few { length rails.now ≤ 64 }
    requires named { named.now ≡ map (named_by tree.now (map seen rails.now)) (map seen rails.now) }
    requires graph { graph.now ≡ graph_of tree.now (map seen rails.now) }
    ensures fault { IfErr result (λ fault. fault ≢ BoardFault.Memory → group_fault tree.now (map seen rails.now) ≡ Some fault) }
    ensures none { OnOk result (group_fault tree.now (map seen rails.now) ≡ None) }
    ensures spreads { IfOk result (λ spreads. spreads ≡ map (λ rail. stated_spread tree.now rail.node) (map seen rails.now)) }
{
    let pairs = pairs_of(alloc, rails.len() as u16)?;
    if let Some((first, second)) = one_way(named, pairs.as_slice()) {
        return Err(BoardFault::OneWay(first, second));
    }
    let spreads = spreads_of(alloc, tree, rails)?;
    if let Some((first, second)) = two_spreads(named, &spreads, pairs.as_slice()) {
        return Err(BoardFault::SpreadsDiffer(first, second));
    }
    if let Some((lower, upper)) = coupled_supplier(alloc, graph, named, pairs.as_slice())? {
        return Err(BoardFault::CoupledSupplier(lower, upper));
    }
    Ok(spreads)
}
