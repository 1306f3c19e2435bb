ghost use Rattle.std.specs.Prelude.{◌≡◌, ◌<◌, ◌↔◌, ℕ, Some, IfSome, IsTrue, MatchOption, length, slice_get};
ghost use Rattle.chip_regs.specs.Registers.{HasChip};
ghost use Rattle.board_graph.specs.Graph.{supply_at, AreCoupled};
ghost use Rattle.board_graph.specs.Sets.{is_linked_at};
ghost use Rattle.board.specs.declared.rail.Rail.{Rail};
ghost use Rattle.board.specs.Rail.{uv, is_on, IsAllowed};
ghost use Rattle.board.specs.Valid.{IsValid};
ghost use Rattle.rail_law.specs.BoardTies.{dropout_at};
ghost use Rattle.rail_law.specs.Law.{Law};
ghost use Rattle.rail_law.specs.Moves.{after_write};
ghost use Rattle.rail_law.specs.Inside.{shown, AreJudged, KeepsSpread, HasSupplyOn, KeepsDropout, HoldsFor, Binds};

use crate::shown::{on_shown, uv_shown};
use board::{Board, Write};
use chip_regs::Regs;

/// Whether the law holds of a board's registers. It is judged as the law reads, each rail against each,
/// 4096 pairs for 64 rails: that is slow, and for tests. Takes no memory.
pub fn law_holds(board: &Board, regs: &Regs) -> bool
    requires valid { IsValid board.now }
    requires chips { length regs.now ≡ board.now.chips }
    ensures { IsTrue result ↔ Law board.now regs.now }
{
    holds(board, regs, None)
}

/// Whether the law holds of a board's registers after a masked update of one of them, which isn't made
/// here. It is as slow as `law_holds`. Takes no memory.
pub fn write_keeps(board: &Board, regs: &Regs, write: &Write) -> bool
    requires valid { IsValid board.now }
    requires chips { length regs.now ≡ board.now.chips }
    requires chip { HasChip regs.now write.now.chip }
    ensures { IsTrue result ↔ Law board.now (after_write regs.now write.now) }
{
    holds(board, regs, Some(*write))
}

/// Whether the law holds after a write, where there is one.
fn holds(board: &Board, regs: &Regs, write: Option<Write>) -> bool
    requires { AreJudged board.now regs.now write }
    ensures { IsTrue result ↔ Law board.now (shown write regs.now) }
{
    for r in 0..board.rails.len() {
        if !holds_for(board, regs, write, r) {
            return false;
        }
    }
    true
}

/// Whether a rail keeps the law.
fn holds_for(board: &Board, regs: &Regs, write: Option<Write>, r: usize) -> bool
    requires judged { AreJudged board.now regs.now write }
    requires rail { r < length board.now.rails }
    ensures { IsTrue result ↔ HoldsFor board.now (shown write regs.now) r }
{
    is_allowed(board, regs, write, r)
        && keeps_spreads(board, regs, write, r)
        && has_supply_on(board, regs, write, r)
        && keeps_dropout(board, regs, write, r)
}

/// Whether a rail stands at a value that it may stand at.
fn is_allowed(board: &Board, regs: &Regs, write: Option<Write>, r: usize) -> bool
    requires judged { AreJudged board.now regs.now write }
    requires rail { r < length board.now.rails }
    ensures { IsTrue result ↔ ((rail : Rail) → slice_get board.now.rails r ≡ Some rail → IsAllowed rail (uv rail (shown write regs.now))) }
{
    let uv = uv_at(board, regs, write, r);
    board.rails.as_slice()[r].allows(uv)
}

/// Whether a rail is above none that it is coupled with by more than their spread.
fn keeps_spreads(board: &Board, regs: &Regs, write: Option<Write>, r: usize) -> bool
    requires judged { AreJudged board.now regs.now write }
    requires rail { r < length board.now.rails }
    ensures { IsTrue result ↔ ((other : ℕ) → KeepsSpread board.now (shown write regs.now) r other) }
{
    for other in 0..board.rails.len() {
        if !keeps_spread(board, regs, write, r, other) {
            return false;
        }
    }
    true
}

/// Whether a rail isn't above another that it is coupled with by more than their spread.
fn keeps_spread(board: &Board, regs: &Regs, write: Option<Write>, r: usize, other: usize) -> bool
    requires judged { AreJudged board.now regs.now write }
    requires rail { r < length board.now.rails }
    requires other { other < length board.now.rails }
    ensures { IsTrue result ↔ KeepsSpread board.now (shown write regs.now) r other }
{
    let Some(spread) = spread_between(board, r, other) else {
        return true;
    };
    let high = u64::from(uv_at(board, regs, write, r));
    let low = u64::from(uv_at(board, regs, write, other));
    high <= low + u64::from(spread)
}

/// Whether a rail that is on has its supply on, where it has one.
fn has_supply_on(board: &Board, regs: &Regs, write: Option<Write>, r: usize) -> bool
    requires judged { AreJudged board.now regs.now write }
    requires rail { r < length board.now.rails }
    ensures { IsTrue result ↔ HasSupplyOn board.now (shown write regs.now) r }
{
    let Some(upper) = supply_of(board, r) else {
        return true;
    };
    let on = on_at(board, regs, write, r);
    let supply_on = on_at(board, regs, write, usize::from(upper));
    !on || supply_on
}

/// Whether a rail is its dropout below its supply, where it is linked to it.
fn keeps_dropout(board: &Board, regs: &Regs, write: Option<Write>, r: usize) -> bool
    requires judged { AreJudged board.now regs.now write }
    requires rail { r < length board.now.rails }
    ensures { IsTrue result ↔ KeepsDropout board.now (shown write regs.now) r }
{
    if !is_linked(board, r) {
        return true;
    }
    let Some(upper) = supply_of(board, r) else {
        return true;
    };
    let low = u64::from(uv_at(board, regs, write, r));
    let high = u64::from(uv_at(board, regs, write, usize::from(upper)));
    low + u64::from(dropout_of(board, r)) <= high
}

/// Where a rail stands, in µV.
fn uv_at(board: &Board, regs: &Regs, write: Option<Write>, r: usize) -> u32
    requires judged { AreJudged board.now regs.now write }
    requires rail { r < length board.now.rails }
    ensures { (rail : Rail) → slice_get board.now.rails r ≡ Some rail → result ≡ uv rail (shown write regs.now) }
{
    uv_shown(&board.rails.as_slice()[r], regs, write)
}

/// Whether a rail is on.
fn on_at(board: &Board, regs: &Regs, write: Option<Write>, r: usize) -> bool
    requires judged { AreJudged board.now regs.now write }
    requires rail { r < length board.now.rails }
    ensures { (rail : Rail) → slice_get board.now.rails r ≡ Some rail → result ≡ is_on rail (shown write regs.now) }
{
    on_shown(&board.rails.as_slice()[r], regs, write)
}

/// The supply of a rail, where it has one.
fn supply_of(board: &Board, r: usize) -> Option<u16>
    requires valid { IsValid board.now }
    requires rail { r < length board.now.rails }
    ensures supply { result ≡ supply_at board.now.graph r }
    ensures rail { IfSome result (λ upper. upper < length board.now.rails) }
{
    board.graph.supply.as_slice()[r]
}

/// Whether a rail ties its supply by a dropout.
fn is_linked(board: &Board, r: usize) -> bool
    requires valid { IsValid board.now }
    requires rail { r < length board.now.rails }
    ensures { result ≡ is_linked_at board.now.graph r }
{
    board.graph.link.as_slice()[r]
}

/// The dropout of a rail, in µV.
fn dropout_of(board: &Board, r: usize) -> u32
    requires rail { r < length board.now.rails }
    ensures { result ≡ dropout_at board.now r }
{
    board.rails.as_slice()[r].desc.dropout
}

/// By how much two rails may differ, in µV, where they are coupled.
fn spread_between(board: &Board, r: usize, other: usize) -> Option<u32>
    requires valid { IsValid board.now }
    requires rail { r < length board.now.rails }
    requires other { other < length board.now.rails }
    ensures { MatchOption result (¬ AreCoupled board.now.graph r other) (Binds board.now r other) }
{
    let groups = board.graph.group.as_slice();
    if r == other || groups[r] != groups[other] {
        return None;
    }
    Some(board.spread.as_slice()[usize::from(groups[r])])
}
