ghost use Rattle.std.specs.Prelude.{◌≡◌, None, All, find, length};
ghost use Rattle.board_graph.specs.Graph.{IsRailCount};
ghost use Rattle.board_graph.specs.Sets.{rails_of};
ghost use Rattle.board.specs.Valid.{CarriesSystemLoad, IsGraphOf};
ghost use Rattle.board_checks.specs.Loads.{is_overloaded, load_at, load_fault};
ghost use Rattle.board_checks.specs.Rails.{tests_rail};

use crate::CheckFault;
use board::{Board, Rail};
use load_modes::mode_for;

/// The first rail that counts loads and has no allowed mode that carries the load which no consumer tells.
pub fn check_loads(board: &Board) -> Option<CheckFault>
    requires few { IsRailCount (length board.now.rails) }
    requires graph { IsGraphOf board.now }
    ensures exact { result ≡ load_fault board.now }
    ensures carried { result ≡ None → All CarriesSystemLoad board.now.rails }
{
    let r = first_overloaded(board)?;
    Some(CheckFault::LoadOverModes(r as u16, load_at(board, r)))
}

/// The first rail that counts loads and has no mode for its own.
fn first_overloaded(board: &Board) -> Option<usize>
    ensures { result ≡ find (tests_rail is_overloaded board.now) (rails_of board.now.graph) }
{
    (0..board.graph.group.len()).find(|r| is_overloaded_at(board, *r))
}

/// Whether the rail is there, and no mode carries its load.
fn is_overloaded_at(board: &Board, r: usize) -> bool
    ensures { result ≡ tests_rail is_overloaded board.now r }
{
    match board.rails.get(r) {
        Some(rail) => is_overloaded(rail),
        None => false,
    }
}

/// Whether the rail counts loads, and no mode carries the one that no consumer tells.
fn is_overloaded(rail: &Rail) -> bool
    ensures { result ≡ is_overloaded rail.now }
{
    let limits = &rail.limits;
    limits.allow_load
        && rail.desc.modes.is_some()
        && mode_for(
            &rail.desc.greatest,
            limits.allowed,
            u64::from(limits.system_load),
        )
        .is_none()
}

/// The load of the rail that no consumer tells, in µA.
fn load_at(board: &Board, r: usize) -> u64
    ensures { result ≡ load_at board.now r }
{
    match board.rails.get(r) {
        Some(rail) => u64::from(rail.limits.system_load),
        None => 0,
    }
}
