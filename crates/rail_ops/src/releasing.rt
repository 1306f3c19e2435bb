ghost use Rattle.std.specs.Prelude.{◌≡◌, ◌<◌, ◌≤◌, ◌-◌, ◌&&◌, ◌++◌, ◌∷◌, [], if◌then◌else◌, ℕ, Contains, Some, None, length, option_map, reverse, take, IfOk, IfSome, OnErr, OnOk};
ghost use Rattle.board.specs.declared.rail_id.RailId.{RailId as TheRailId};
ghost use Rattle.board.specs.Valid.{IsValid};
ghost use Rattle.rail_law.specs.Moves.{update_of_field, writes_of};
ghost use Rattle.reg_outside.specs.Bus.{told_by};
ghost use Rattle.plain_board.specs.declared.plain.Plain.{Plain};
ghost use Rattle.plain_board.specs.Plan.{sweep_off};
ghost use Rattle.plain_board.specs.Untied.{IsUntied};
ghost use Rattle.rail_ops.specs.Inside.Falling.{CameDown, Fell, IsSighted, WentDown};
ghost use Rattle.rail_ops.specs.Inside.Raised.{ChangesBook};
ghost use Rattle.rail_ops.specs.Inside.Releasing.{EndsHolds, released};
ghost use Rattle.rail_ops.specs.Inside.Supplied.{HavePlaces};
ghost use Rattle.rail_ops.specs.Sight.{shown_by};

use crate::disabling::{answer_of, off_write};
use crate::falling::{Fall, seen_idle, switch_off};
use crate::looking::rail_at;
use crate::outcome::Outcome;
use board::{Board, RailId, Write};
use chip_regs::Field;
use item_list::Items;
use rail_state::Rails;
use reg_outside::Wire;
use std::alloc::{AllocError, Global};

/// Ends the hold of a rail, unless the rail is always on.
fn end_hold<R: Rails>(rails: &mut R, r: RailId, always: bool)
    requires fits { R.fits rails.old }
    requires held { Contains (R.rails rails.old) r.0 }
    ensures ended { ChangesBook r.0 (record (R.states rails.old r.0) { held = (R.states rails.old r.0).held && always }) (shown_by R.board R.rails R.bits R.states rails.old) (shown_by R.board R.rails R.bits R.states rails.new) }
    ensures fits { R.fits rails.new }
    ensures base { R.base rails.new ≡ R.base rails.old }
{
    let state = rails.state_mut(r);
    let held = state.hold();
    state.set_hold(held && always);
}

/// Ends the holds of the first so many rails, but for those that are always on.
fn end_holds<R: Rails>(board: &Board, rails: &mut R, count: usize)
    requires valid { IsValid board.now }
    requires fits { R.fits rails.old }
    requires board { R.board rails.old ≡ board.now }
    requires within { count ≤ length board.now.rails }
    requires held { (i : ℕ) → i < length board.now.rails → Contains (R.rails rails.old) i }
    ensures ended { EndsHolds count (shown_by R.board R.rails R.bits R.states rails.old) (shown_by R.board R.rails R.bits R.states rails.new) }
    ensures fits { R.fits rails.new }
    ensures base { R.base rails.new ≡ R.base rails.old }
{
    if count == 0 {
        return;
    }
    let r = RailId((count - 1) as u16);
    end_hold(rails, r, rail_at(board, r).limits.always_on);
    end_holds(board, rails, count - 1);
}

/// The last of the first so many rails in the order in which the rails come up.
fn last_of(board: &Board, left: usize) -> RailId
    requires valid { IsValid board.now }
    requires some { 0 < left }
    requires within { left ≤ length board.now.order }
    ensures there { result.0 < length board.now.rails }
    ensures last { reverse (take left board.now.order) ≡ result.0 ∷ reverse (take (left - 1) board.now.order) }
{
    RailId(board.order.as_slice()[left - 1])
}

/// Lists the register write that puts 0 into a field, where it is to be kept.
fn keep_off(writes: &mut Vec<Write>, keep: bool, field: &Field) -> Result<(), AllocError>
    ensures { OnOk result (writes.new.items ≡ writes.old.items ++ (if keep then update_of_field (Some field.now) 0 ∷ [] else [])) }
{
    if keep {
        writes.push(off_write(field))?;
    }
    Ok(())
}

/// Switches off those of the first so many rails that are idle, from the last on, and stops where the
/// bus refuses one. At `Err` the memory was out on the way.
fn sweep_down<R: Rails, W: Wire>(
    board: &Board,
    rails: &mut R,
    wire: &mut W,
    keep: bool,
    writes: &mut Vec<Write>,
    left: usize,
) -> Result<Fall, AllocError>
    requires valid { IsValid board.now }
    requires untied { IsUntied board.now }
    requires places { HavePlaces board.now }
    requires fits { R.fits rails.old }
    requires board { R.board rails.old ≡ board.now }
    requires within { left ≤ length board.now.order }
    requires held { (i : ℕ) → i < length board.now.rails → Contains (R.rails rails.old) i }
    requires seen { (plain : Plain) × IsSighted (shown_by R.board R.rails R.bits R.states rails.old) plain }
    ensures falls { IfOk result (λ fall. (plain : Plain) → IsSighted (shown_by R.board R.rails R.bits R.states rails.old) plain → CameDown (shown_by R.board R.rails R.bits R.states rails.old) (shown_by R.board R.rails R.bits R.states rails.new) (told_by W.accepted W.plan W.faults wire.old) (told_by W.accepted W.plan W.faults wire.new) fall.made (option_map (λ (id : TheRailId). id.0) fall.refused) plain (sweep_off (R.board rails.old) plain (reverse (take left board.now.order)))) }
    ensures kept { IfOk result (λ fall. (plain : Plain) → IsSighted (shown_by R.board R.rails R.bits R.states rails.old) plain → writes.new.items ≡ writes.old.items ++ (if keep then writes_of (R.board rails.old) (take fall.made (sweep_off (R.board rails.old) plain (reverse (take left board.now.order)))) else [])) }
    ensures there { IfOk result (λ fall. IfSome fall.refused (λ id. id.0 < length board.now.rails)) }
    ensures err { OnErr result ((made : ℕ) × ((plain : Plain) → IsSighted (shown_by R.board R.rails R.bits R.states rails.old) plain → WentDown (shown_by R.board R.rails R.bits R.states rails.old) (shown_by R.board R.rails R.bits R.states rails.new) (told_by W.accepted W.plan W.faults wire.old) (told_by W.accepted W.plan W.faults wire.new) made None plain (sweep_off (R.board rails.old) plain (reverse (take left board.now.order))))) }
    ensures fits { R.fits rails.new }
    ensures board { R.board rails.new ≡ R.board rails.old }
    ensures rails { R.rails rails.new ≡ R.rails rails.old }
    ensures base { R.base rails.new ≡ R.base rails.old }
{
    if left == 0 {
        return Ok(Fall {
            made: 0,
            refused: None,
        });
    }
    let r = last_of(board, left);
    if !seen_idle(board, rails, r) {
        return sweep_down(board, rails, wire, keep, writes, left - 1);
    }
    if !switch_off(board, rails, wire, r)? {
        return Ok(Fall {
            made: 0,
            refused: Some(r),
        });
    }
    keep_off(writes, keep, &rail_at(board, r).desc.enable)?;
    let rest = sweep_down(board, rails, wire, keep, writes, left - 1)?;
    Ok(Fall {
        made: rest.made + 1,
        refused: rest.refused,
    })
}

/// Ends the holds of the start, switches off the rails that are idle then, each before its supply, and
/// says what is answered. At `Err` the memory was out on the way.
pub(crate) fn release<R: Rails, W: Wire>(
    alloc: Global,
    board: &Board,
    rails: &mut R,
    wire: &mut W,
    keep: bool,
) -> Result<Outcome, AllocError>
    requires valid { IsValid board.now }
    requires untied { IsUntied board.now }
    requires places { HavePlaces board.now }
    requires fits { R.fits rails.old }
    requires board { R.board rails.old ≡ board.now }
    requires held { (i : ℕ) → i < length board.now.rails → Contains (R.rails rails.old) i }
    requires seen { (plain : Plain) × IsSighted (shown_by R.board R.rails R.bits R.states rails.old) plain × (length plain.holds ≡ length board.now.rails) }
    ensures fell { IfOk result (λ outcome. (plain : Plain) → IsSighted (shown_by R.board R.rails R.bits R.states rails.old) plain → length plain.holds ≡ length board.now.rails → Fell (shown_by R.board R.rails R.bits R.states rails.old) (shown_by R.board R.rails R.bits R.states rails.new) (told_by W.accepted W.plan W.faults wire.old) (told_by W.accepted W.plan W.faults wire.new) keep outcome.answer outcome.writes (released (R.board rails.old) plain) (sweep_off (R.board rails.old) (released (R.board rails.old) plain) (reverse (R.board rails.old).order))) }
    ensures err { OnErr result ((made : ℕ) × ((plain : Plain) → IsSighted (shown_by R.board R.rails R.bits R.states rails.old) plain → length plain.holds ≡ length board.now.rails → WentDown (shown_by R.board R.rails R.bits R.states rails.old) (shown_by R.board R.rails R.bits R.states rails.new) (told_by W.accepted W.plan W.faults wire.old) (told_by W.accepted W.plan W.faults wire.new) made None (released (R.board rails.old) plain) (sweep_off (R.board rails.old) (released (R.board rails.old) plain) (reverse (R.board rails.old).order)))) }
    ensures fits { R.fits rails.new }
    ensures board { R.board rails.new ≡ R.board rails.old }
    ensures rails { R.rails rails.new ≡ R.rails rails.old }
    ensures base { R.base rails.new ≡ R.base rails.old }
{
    end_holds(board, rails, board.rails.len());
    let mut writes = Vec::new(alloc);
    let fall = sweep_down(board, rails, wire, keep, &mut writes, board.order.len())?;
    Ok(Outcome {
        answer: answer_of(alloc, board, fall),
        writes: Items::from_vec(writes),
    })
}
