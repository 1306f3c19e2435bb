ghost use Rattle.std.specs.Prelude.{◌≡◌, find, length};
ghost use Rattle.std.specs.List.{list_any, range_with_len};
ghost use Rattle.board_graph.specs.Graph.{IsRailCount};
ghost use Rattle.board_checks.specs.Asleep.{are_apart, are_apart_asleep, asleep, asleep_at, suspend_fault};
ghost use Rattle.board_checks.specs.Rails.{spread_at};

use crate::CheckFault;
use crate::coupled::{are_coupled, spread_at};
use board::{Board, Sleep};

/// The first two coupled rails that are to stand, in one of the states of a suspended board, at values
/// further apart than the spread of their group. A rail that is to be off there has none.
pub fn check_sleeps(board: &Board) -> Option<CheckFault>
    requires few { IsRailCount (length board.now.rails) }
    ensures exact { result ≡ suspend_fault board.now }
{
    for a in 0..board.rails.len() {
        if let Some(b) = first_apart(board, a) {
            return Some(CheckFault::SuspendSpread(a as u16, b as u16));
        }
    }
    None
}

/// The first rail that is coupled with this one and too far from it in one of the states.
fn first_apart(board: &Board, a: usize) -> Option<usize>
    ensures { result ≡ find (are_apart_asleep board.now a) (range_with_len 0 (length board.now.rails)) }
{
    for b in 0..board.rails.len() {
        if are_apart_asleep(board, a, b) {
            return Some(b);
        }
    }
    None
}

/// Whether the two rails are coupled, and too far apart in one of the states.
fn are_apart_asleep(board: &Board, a: usize, b: usize) -> bool
    ensures { result ≡ are_apart_asleep board.now a b }
{
    are_coupled(&board.graph, a, b) && are_apart_in_some(board, a, b)
}

/// Whether the two rails are too far apart in one of the states.
fn are_apart_in_some(board: &Board, a: usize, b: usize) -> bool
    ensures { result ≡ list_any (λ state. are_apart (spread_at board.now a) (asleep_at board.now state a) (asleep_at board.now state b)) (range_with_len 0 3) }
{
    let spread = spread_at(board, a);
    (0..3).any(|state| are_apart(
        spread,
        asleep_at(board, state, a),
        asleep_at(board, state, b),
    ))
}

/// Whether there are two values, further apart than `spread` µV.
fn are_apart(spread: u32, first: Option<u32>, second: Option<u32>) -> bool
    ensures { result ≡ are_apart spread first second }
{
    match (first, second) {
        (Some(u), Some(v)) => u.abs_diff(v) > spread,
        _ => false,
    }
}

/// The value that the rail is to have in a state, unless it is to be off there.
fn asleep_at(board: &Board, state: usize, r: usize) -> Option<u32>
    ensures { result ≡ asleep_at board.now state r }
{
    asleep(board.rails.get(r)?.limits.sleeps.get(state)?)
}

/// The value of a rail that is to be so, unless it is to be off.
fn asleep(sleep: &Option<Sleep>) -> Option<u32>
    ensures { result ≡ asleep sleep.now }
{
    match sleep {
        Some(sleep) if sleep.on.unwrap_or(true) => sleep.uv,
        _ => None,
    }
}
