ghost use Rattle.std.specs.Prelude.{◌≡◌, ◌+◌, ◌≤◌, ◌<◌, ◌^◌, None, All, MatchOption, find, length};
ghost use Rattle.value_list.specs.Laws.{IsBounded};
ghost use Rattle.board_graph.specs.Graph.{IsRailCount};
ghost use Rattle.board_graph.specs.Sets.{rails_of};
ghost use Rattle.board.specs.Fields.{IsLeastAbove};
ghost use Rattle.board.specs.Rail.{allowed};
ghost use Rattle.board.specs.Table.{values_of};
ghost use Rattle.board.specs.Valid.{IsGraphOf};
ghost use Rattle.board_checks.specs.GapFault.{gap_at, gap_fault, is_over_spread, is_over_step, spread_fault, step_at, step_fault, AreNarrow};
ghost use Rattle.board_checks.specs.Gaps.{widest_gap};
ghost use Rattle.board_checks.specs.Rails.{tests_rail};

use crate::CheckFault;
use crate::coupled::{is_coupled, spread_at};
use board::{Board, Rail, Table};

/// The first changeable rail that is coupled and has neighbouring values further apart than the spread
/// of its group; where there is none, the first changeable one that has values further apart than its
/// greatest step.
///
/// Rail 0 stands at 0 or 100 µV, and is coupled with one at 30 or 130 µV by a spread of 40 µV. From 0
/// and 30 µV neither can move, so `GapOverSpread(0, 100, 40)` is told.
pub fn check_gaps(board: &Board) -> Option<CheckFault>
    requires few { IsRailCount (length board.now.rails) }
    requires graph { IsGraphOf board.now }
    ensures exact { result ≡ gap_fault board.now }
    ensures narrow { result ≡ None → AreNarrow board.now }
{
    match gap_over_spread(board) {
        Some(fault) => Some(fault),
        None => gap_over_step(board),
    }
}

/// The first rail with a gap above the spread, as a fault.
fn gap_over_spread(board: &Board) -> Option<CheckFault>
    requires few { IsRailCount (length board.now.rails) }
    requires graph { IsGraphOf board.now }
    ensures { result ≡ spread_fault board.now }
{
    let r = first_over_spread(board)?;
    Some(CheckFault::GapOverSpread(r as u16, gap_at(board, r), spread_at(board, r)))
}

/// The first rail with a gap above the spread.
fn first_over_spread(board: &Board) -> Option<usize>
    ensures { result ≡ find (is_over_spread board.now) (rails_of board.now.graph) }
{
    (0..board.graph.group.len()).find(|r| is_over_spread(board, *r))
}

/// The first rail with a gap above its greatest step, as a fault.
fn gap_over_step(board: &Board) -> Option<CheckFault>
    requires few { IsRailCount (length board.now.rails) }
    requires graph { IsGraphOf board.now }
    ensures { result ≡ step_fault board.now }
{
    let r = first_over_step(board)?;
    Some(CheckFault::GapOverStep(r as u16, gap_at(board, r), step_at(board, r)))
}

/// The first rail with a gap above its greatest step.
fn first_over_step(board: &Board) -> Option<usize>
    ensures { result ≡ find (is_over_step board.now) (rails_of board.now.graph) }
{
    (0..board.graph.group.len()).find(|r| is_over_step(board, *r))
}

/// Whether the rail is changeable and coupled, and has a gap above the spread.
fn is_over_spread(board: &Board, r: usize) -> bool
    ensures { result ≡ is_over_spread board.now r }
{
    is_changeable(board, r) && is_coupled(&board.graph, r) && gap_at(board, r) > spread_at(board, r)
}

/// Whether the rail is changeable, and has a gap above its greatest step, where it has one.
fn is_over_step(board: &Board, r: usize) -> bool
    ensures { result ≡ is_over_step board.now r }
{
    let step = step_at(board, r);
    is_changeable(board, r) && step != 0 && gap_at(board, r) > step
}

/// Whether the rail is there, and can change.
fn is_changeable(board: &Board, r: usize) -> bool
    ensures { result ≡ tests_rail (λ rail. rail.changeable) board.now r }
{
    match board.rails.get(r) {
        Some(rail) => rail.changeable,
        None => false,
    }
}

/// The greatest step of the rail, in µV.
fn step_at(board: &Board, r: usize) -> u32
    ensures { result ≡ step_at board.now r }
{
    match board.rails.get(r) {
        Some(rail) => rail.limits.max_step,
        None => 0,
    }
}

/// The widest gap between neighbouring values that the rail may stand at, in µV.
fn gap_at(board: &Board, r: usize) -> u32
    ensures { result ≡ gap_at board.now r }
{
    match board.rails.get(r) {
        Some(rail) => widest_gap(rail),
        None => 0,
    }
}

/// The widest gap between neighbouring values that the rail may stand at, in µV: from the least value
/// on, neighbour by neighbour.
fn widest_gap(rail: &Rail) -> u32
    ensures { result ≡ widest_gap (allowed rail.now) }
{
    let Some(first) = least_from(rail, 0) else {
        return 0;
    };
    let mut low = first;
    let mut widest = 0;
    while let Some(high) = next_above(rail, low) {
        widest = widest.max(high - low);
        low = high;
    }
    widest
}

/// The least value above `uv` µV that the rail may stand at.
fn next_above(rail: &Rail, uv: u32) -> Option<u32>
    ensures { MatchOption result (All (λ value. value ≤ uv) (allowed rail.now)) (λ next. IsLeastAbove (allowed rail.now) (uv + 1) next) }
{
    know_values(rail);
    least_from(rail, uv.checked_add(1)?)
}

/// The least value that the rail may stand at that isn't below `uv` µV.
fn least_from(rail: &Rail, uv: u32) -> Option<u32>
    ensures { MatchOption result (All (λ value. value < uv) (allowed rail.now)) (λ least. IsLeastAbove (allowed rail.now) uv least) }
{
    match rail.at_or_above(uv) {
        Some(pick) => Some(pick.uv),
        None => None,
    }
}

/// Each value that the rail may stand at is a `u32`.
fn know_values(rail: &Rail)
    ensures { All (λ value. value < 2 ^ 32) (allowed rail.now) }
{
    let _kept = rail.kept_uv;
    know_table(&rail.desc.table);
}

/// Each selector of a table is a `u16`, and each value a `u32`.
fn know_table(table: &Table)
    ensures { IsBounded (values_of table.now) }
{
    match table {
        Table::Ranges(ranges) => linear_range::laws_of(ranges),
        Table::List(list) => voltage_table::laws_of(list),
    }
}
