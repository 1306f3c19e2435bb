//! The order in which rails come up, and what goes with a rail, worked out by hand.
ghost use Rattle.std.specs.Prelude.{◌≡◌, ◌≤◌, nat_lt, IfOk, length, true};
ghost use Rattle.std.specs.List.{list_all};
ghost use Rattle.std.specs.Option.{option_map_or};
ghost use Rattle.board_graph.specs.Graph.{count_of, IsGraph};

use crate::same::assert_same;
use board_graph::{Graph, LoopFault};
use item_list::Items;
use std::alloc::{AllocError, Global};
use std::test::Fail;

/// A graph by its supplies and groups, in which all rails are linked to their supplies or none are.
fn graph_of(
    alloc: Global,
    supply: &[Option<u16>],
    group: &[u16],
    link: bool,
) -> Result<Graph, AllocError>
    requires supplies { length supply.now ≡ length group.now }
    requires few { length group.now ≤ 65535 }
    requires rails { list_all (λ s. option_map_or (λ upper. nat_lt upper (length group.now)) s true) supply.now ≡ true }
    ensures graph { IfOk result IsGraph }
    ensures count { IfOk result (λ graph. count_of graph ≡ length group.now) }
{
    Ok(Graph {
        supply: Items::from_vec(supply.to_vec(alloc)?),
        group: Items::from_vec(group.to_vec(alloc)?),
        link: Items::from_vec(vec![in alloc; link; group.len()]?),
    })
}

// Rail 0 has its supply in rail 2, which is coupled with rail 1.
#[test]
fn a_rail_behind_a_coupled_pair(rt: HostRuntime) -> Result<(), Fail> {
    let graph = graph_of(rt.alloc(), &[Some(2), None, None], &[0, 5, 5], true)?;
    let order = graph.order(rt.alloc())?;
    assert_same(&rt, "order", order.as_slice(), [1, 2, 0].as_slice());
    let closure = graph.closure(rt.alloc(), 0)?;
    assert_same(&rt, "closure", closure.as_slice(), [0, 1, 2].as_slice());
    let movers = graph.movers(rt.alloc(), 0)?;
    assert_same(&rt, "movers", movers.as_slice(), [0, 1, 2].as_slice());
    Ok(())
}

#[test]
fn a_rail_without_a_link(rt: HostRuntime) -> Result<(), Fail> {
    let graph = graph_of(rt.alloc(), &[Some(1), None], &[0, 1], false)?;
    let closure = graph.closure(rt.alloc(), 0)?;
    assert_same(&rt, "closure", closure.as_slice(), [0, 1].as_slice());
    let movers = graph.movers(rt.alloc(), 0)?;
    assert_same(&rt, "movers", movers.as_slice(), [0].as_slice());
    Ok(())
}

// Rails 1 and 2 supply each other, and rail 0 has its supply in rail 1.
#[test]
fn a_loop_of_supplies(rt: HostRuntime) -> Result<(), Fail> {
    let graph = graph_of(rt.alloc(), &[Some(1), Some(2), Some(1)], &[0, 1, 2], false)?;
    let order = graph.order(rt.alloc());
    assert!(rt; matches!(order, Err(LoopFault::Supply(1))));
    Ok(())
}

// Rails 1 and 3 are coupled; rail 3 has its supply in rail 2, and that in rail 1.
#[test]
fn a_loop_of_blocks(rt: HostRuntime) -> Result<(), Fail> {
    let supply = [None, None, Some(1), Some(2)];
    let graph = graph_of(rt.alloc(), &supply, &[0, 5, 2, 5], false)?;
    let order = graph.order(rt.alloc());
    assert!(rt; matches!(order, Err(LoopFault::Group(1))));
    Ok(())
}
