ghost use Rattle.std.specs.Prelude.{◌≡◌, ◌≢◌, None, Some, map, IfErr, IfOk, OnOk};
ghost use Rattle.board.specs.Valid.{IsSoundBoard, IsValid};
ghost use Rattle.constraints.specs.Coupling.{stated_spread};
ghost use Rattle.constraints.specs.Node.{constraints_at};
ghost use Rattle.board_graph.specs.Order.{IsOrder};
ghost use Rattle.board_nodes.specs.Chips.{resets_of};
ghost use Rattle.board_nodes.specs.Rails.{seen};
ghost use Rattle.board_draft.specs.Faults.{first_fault, link_fault};
ghost use Rattle.board_draft.specs.Links.{graph_of};
ghost use Rattle.board_draft.specs.Sketch.{IsBoardOf};
ghost use Rattle.board_draft.specs.Inside.Nodes.{AreNodesOf, ArePartsOf, later_fault};

use crate::build::{rails_of, spreads_from};
use crate::check::check;
use crate::drafted::Drafted;
use crate::fault::BoardFault;
use crate::parts::{Parts, parts_of};
use board::Board;
use board_nodes::{BoardNodes, RailNode, board_nodes};
use dts_tree::Tree;
use item_list::Items;
use std::alloc::{AllocError, Global};

/// The board of a tree, or the first reason why the tree makes none; `Memory` where an allocation is refused.
pub fn draft(alloc: Global, tree: &Tree) -> Result<Drafted, BoardFault>
    ensures fault { IfErr result (λ fault. fault ≢ BoardFault.Memory → first_fault tree.now ≡ Some fault) }
    ensures none { OnOk result (first_fault tree.now ≡ None) }
    ensures board { IfOk result (λ drafted. IsBoardOf tree.now drafted.board) }
    ensures valid { IfOk result (λ drafted. IsValid drafted.board) }
    ensures resets { IfOk result (λ drafted. drafted.resets ≡ resets_of tree.now) }
{
    let BoardNodes {
        rails,
        chips,
        resets,
    } = board_nodes(alloc, tree)?;
    let board = board_of(alloc, tree, rails, chips)?;
    Ok(Drafted { board, resets })
}

/// The board of these rails, or the first thing that is wrong with them.
fn board_of(
    alloc: Global,
    tree: &Tree,
    nodes: Items<RailNode>,
    chips: u8,
) -> Result<Board, BoardFault>
    requires { AreNodesOf tree.now chips nodes }
    ensures fault { IfErr result (λ fault. fault ≢ BoardFault.Memory → later_fault tree.now ≡ Some fault) }
    ensures none { OnOk result (later_fault tree.now ≡ None) }
    ensures board { IfOk result (λ board. IsBoardOf tree.now board) }
    ensures valid { IfOk result (λ board. IsValid board) }
{
    let parts = parts_of(alloc, tree, nodes.as_slice())?;
    let board = assembled(alloc, tree, nodes, chips, parts)?;
    check(&board)?;
    Ok(board)
}

/// The board with these rails, chips and parts.
fn assembled(
    alloc: Global,
    tree: &Tree,
    nodes: Items<RailNode>,
    chips: u8,
    parts: Parts,
) -> Result<Board, AllocError>
    requires nodes { AreNodesOf tree.now chips nodes }
    requires parts { ArePartsOf tree.now nodes parts }
    ensures board { IfOk result (λ board. IsBoardOf tree.now board) }
    ensures sound { IfOk result (λ board. IsSoundBoard board) }
{
    let Parts {
        limits,
        graph,
        spreads,
        order,
    } = parts;
    let spread = spreads_from(alloc, spreads.as_slice())?;
    let rails = rails_of(alloc, tree, nodes.into_vec(), limits.as_slice(), &graph)?;
    Ok(Board {
        rails,
        spread,
        chips,
        graph,
        order,
    })
}
