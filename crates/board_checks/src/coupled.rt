ghost use Rattle.std.specs.Prelude.{◌≡◌};
ghost use Rattle.board_graph.specs.Sets.{is_block_of};
ghost use Rattle.board_checks.specs.Rails.{are_coupled, is_coupled, spread_at};

use board::Board;
use board_graph::Graph;

/// Whether two rails are coupled with each other.
pub(crate) fn are_coupled(graph: &Graph, a: usize, b: usize) -> bool
    ensures { result ≡ are_coupled graph.now a b }
{
    a != b && are_one_block(graph, a, b)
}

/// Whether two rails are of one group.
fn are_one_block(graph: &Graph, a: usize, b: usize) -> bool
    ensures { result ≡ is_block_of graph.now a b }
{
    match (graph.group.get(a), graph.group.get(b)) {
        (Some(first), Some(second)) => first == second,
        _ => false,
    }
}

/// Whether the rail is coupled with some other one.
pub(crate) fn is_coupled(graph: &Graph, r: usize) -> bool
    ensures { result ≡ is_coupled graph.now r }
{
    (0..graph.group.len()).any(|other| are_coupled(graph, r, other))
}

/// How far coupled rails of the rail's group may differ, in µV.
pub(crate) fn spread_at(board: &Board, r: usize) -> u32
    ensures { result ≡ spread_at board.now r }
{
    match board.graph.group.get(r) {
        Some(group) => board.spread.get(usize::from(*group)).copied().unwrap_or(0),
        None => 0,
    }
}
