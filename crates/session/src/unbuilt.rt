ghost use Rattle.std.specs.Prelude.{◌≡◌};
ghost use Rattle.std.specs.List.{list_any};
ghost use Rattle.board.specs.Rail.{counts_loads};
ghost use Rattle.board_checks.specs.Rails.{is_coupled};
ghost use Rattle.board_graph.specs.Sets.{rails_of, is_block_of};
ghost use Rattle.session.specs.Loading.{is_unbuilt};

use board::{Board, Rail};
use board_graph::Graph;

/// Whether two rails are of one group.
fn are_one_block(graph: &Graph, a: usize, b: usize) -> bool
    ensures { result ≡ is_block_of graph.now a b }
{
    match (graph.group.get(a), graph.group.get(b)) {
        (Some(first), Some(second)) => first == second,
        _ => false,
    }
}

/// Whether the rail is coupled with some other one.
fn is_coupled(graph: &Graph, r: usize) -> bool
    ensures { result ≡ is_coupled graph.now r }
{
    (0..graph.group.len()).any(|other| r != other && are_one_block(graph, r, other))
}

/// Whether some rail is coupled.
fn has_couple(graph: &Graph) -> bool
    ensures { result ≡ list_any (is_coupled graph.now) (rails_of graph.now) }
{
    (0..graph.group.len()).any(|r| is_coupled(graph, r))
}

/// Whether consumers' loads choose the rail's mode.
fn counts_loads(rail: &Rail) -> bool
    ensures { result ≡ counts_loads rail.now }
{
    rail.limits.allow_load && rail.desc.modes.is_some()
}

/// Whether some rail is linked to its supply.
fn has_link(graph: &Graph) -> bool
    ensures { result ≡ list_any (λ link. link) graph.now.link }
{
    graph.link.as_slice().iter().any(|link| *link)
}

/// Whether some rail counts loads.
fn has_loads(rails: &[Rail]) -> bool
    ensures { result ≡ list_any counts_loads rails.now }
{
    rails.iter().any(counts_loads)
}

/// Whether a board has a form that isn't built yet.
pub(crate) fn is_unbuilt(board: &Board) -> bool
    ensures { result ≡ is_unbuilt board.now }
{
    has_couple(&board.graph) || has_link(&board.graph) || has_loads(board.rails.as_slice())
}
