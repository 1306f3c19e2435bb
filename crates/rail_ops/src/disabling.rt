ghost use Rattle.std.specs.Prelude.{◌≡◌, ◌<◌, ◌-◌, ◌++◌, [], if◌then◌else◌, ℕ, All, Contains, Some, None, length, map, option_map, slice_get, slice_set, IfOk, IfSome, OnErr, OnOk};
ghost use Rattle.board.specs.declared.rail.Rail.{Rail as TheRail};
ghost use Rattle.board.specs.declared.rail_id.RailId.{RailId as TheRailId};
ghost use Rattle.board.specs.Valid.{IsValid};
ghost use Rattle.chip_regs.specs.declared.field.Field.{Field as TheField};
ghost use Rattle.rail_law.specs.Moves.{update_of_field, writes_of};
ghost use Rattle.rail_state.specs.Sight.{IsOwned};
ghost use Rattle.reg_outside.specs.Bus.{told_by};
ghost use Rattle.use_counts.specs.declared.handle_row.HandleRow.{HandleRow as TheRow};
ghost use Rattle.plain_board.specs.declared.plain.Plain.{Plain};
ghost use Rattle.plain_board.specs.Plan.{chain, chain_off, switch, upward};
ghost use Rattle.plain_board.specs.Untied.{CountsNoLoads, IsUntied};
ghost use Rattle.rail_ops.specs.Exact.{Leaves, Performs};
ghost use Rattle.rail_ops.specs.Inside.Disabling.{disable_refusal};
ghost use Rattle.rail_ops.specs.Inside.Falling.{Fell, IsSighted, WentDown};
ghost use Rattle.rail_ops.specs.Inside.Raised.{ChangesBook};
ghost use Rattle.rail_ops.specs.Inside.Rising.{LeadsUp};
ghost use Rattle.rail_ops.specs.Inside.Supplied.{HavePlaces};
ghost use Rattle.rail_ops.specs.Sight.{IsReady, placed, shown_by};

use crate::enabling::fault;
use crate::falling::{Fall, go_down};
use crate::looking::rail_at;
use crate::outcome::{Outcome, without_writes};
use board::{Board, Handle, RailId, Write};
use chip_regs::Field;
use item_list::Items;
use rail_state::{RailState, Rails};
use reg_outside::Wire;
use rows::{Answer, Call};
use std::alloc::{AllocError, Global};
use use_counts::Mine;

/// The register write that puts 0 into a field.
pub(crate) fn off_write(field: &Field) -> Write
    ensures { result ≡ update_of_field (Some field.now) 0 }
{
    Write {
        chip: field.chip,
        reg: field.reg,
        mask: field.mask,
        bits: 0,
    }
}

/// Lists the register writes that switch off a rail and all above it, from below.
fn list_down(
    writes: &mut Vec<Write>,
    board: &Board,
    most: usize,
    r: Option<RailId>,
) -> Result<(), AllocError>
    requires valid { IsValid board.now }
    requires there { IfSome r (λ id. id.0 < length board.now.rails) }
    requires up { LeadsUp board.now most (option_map (λ (id : TheRailId). id.0) r) }
    ensures ok { OnOk result (writes.new.items ≡ writes.old.items ++ writes_of board.now (map (switch 0) (upward board.now.graph most (option_map (λ (id : TheRailId). id.0) r)))) }
{
    let Some(r) = r else {
        return Ok(());
    };
    let rail = rail_at(board, r);
    writes.push(off_write(&rail.desc.enable))?;
    list_down(writes, board, most - 1, rail.supply)
}

/// The register writes that the call is to keep, if it keeps them: those of all rails of the chain.
fn kept_writes(
    alloc: Global,
    board: &Board,
    keep: bool,
    r: RailId,
) -> Result<Vec<Write>, AllocError>
    requires valid { IsValid board.now }
    requires there { r.0 < length board.now.rails }
    ensures writes { IfOk result (λ writes. writes.items ≡ (if keep then writes_of board.now (map (switch 0) (chain board.now r.0)) else [])) }
{
    let mut writes = Vec::new(alloc);
    if keep {
        list_down(&mut writes, board, board.rails.len(), Some(r))?;
    }
    Ok(writes)
}

/// What is answered where some rails went down so far.
pub(crate) fn answer_of(alloc: Global, board: &Board, fall: Fall) -> Answer
    requires there { IfSome fall.refused (λ id. id.0 < length board.now.rails) }
    ensures done { fall.refused ≡ None → result ≡ Answer.Ok }
    ensures fault { (id : TheRailId) (rail : TheRail) → fall.refused ≡ Some id → slice_get board.now.rails id.0 ≡ Some rail → result ≡ Answer.Fault rail.desc.enable.chip rail.desc.enable.reg fall.made [] }
{
    match fall.refused {
        Some(id) => fault(alloc, board, id, fall.made),
        None => Answer::Ok,
    }
}

/// Switches off a rail and those above it as far as each is idle, and says what is answered.
fn take_down<R: Rails, W: Wire>(
    alloc: Global,
    board: &Board,
    rails: &mut R,
    wire: &mut W,
    keep: bool,
    r: RailId,
) -> Result<Outcome, AllocError>
    requires valid { IsValid board.now }
    requires untied { IsUntied board.now }
    requires places { HavePlaces board.now }
    requires fits { R.fits rails.old }
    requires board { R.board rails.old ≡ board.now }
    requires there { r.0 < length board.now.rails }
    requires held { All (λ i. Contains (R.rails rails.old) i) (chain board.now r.0) }
    requires owned { All (IsOwned board.now (R.rails rails.old)) (chain board.now r.0) }
    requires seen { (plain : Plain) × IsSighted (shown_by R.board R.rails R.bits R.states rails.old) plain }
    ensures fell { IfOk result (λ outcome. (plain : Plain) → IsSighted (shown_by R.board R.rails R.bits R.states rails.old) plain → Fell (shown_by R.board R.rails R.bits R.states rails.old) (shown_by R.board R.rails R.bits R.states rails.new) (told_by W.accepted W.plan W.faults wire.old) (told_by W.accepted W.plan W.faults wire.new) keep outcome.answer outcome.writes plain (chain_off (R.board rails.old) plain (chain board.now r.0))) }
    ensures err { OnErr result ((made : ℕ) × ((plain : Plain) → IsSighted (shown_by R.board R.rails R.bits R.states rails.old) plain → WentDown (shown_by R.board R.rails R.bits R.states rails.old) (shown_by R.board R.rails R.bits R.states rails.new) (told_by W.accepted W.plan W.faults wire.old) (told_by W.accepted W.plan W.faults wire.new) made None plain (chain_off (R.board rails.old) plain (chain board.now r.0)))) }
    ensures fits { R.fits rails.new }
    ensures board { R.board rails.new ≡ R.board rails.old }
    ensures rails { R.rails rails.new ≡ R.rails rails.old }
    ensures base { R.base rails.new ≡ R.base rails.old }
{
    let mut writes = kept_writes(alloc, board, keep, r)?;
    let fall = go_down(board, rails, wire, board.rails.len(), Some(r))?;
    writes.truncate(fall.made as usize);
    Ok(Outcome {
        answer: answer_of(alloc, board, fall),
        writes: Items::from_vec(writes),
    })
}

/// Why an enable of a rail's handle can't be given up, where it can't.
fn refusal(state: &RailState, at: usize) -> Option<Answer>
    requires { at < length state.now.rows }
    ensures { (row : TheRow) → slice_get state.now.rows at ≡ Some row → result ≡ disable_refusal state.now.suspended row.enables }
{
    if state.is_suspended() {
        Some(Answer::Suspended)
    } else if state.rows()[at].enables == 0 {
        Some(Answer::Unbalanced { enables: 0 })
    } else {
        None
    }
}

/// Gives up an enable of a rail's handle.
fn give_up<R: Rails>(rails: &mut R, r: RailId, at: usize)
    requires fits { R.fits rails.old }
    requires held { Contains (R.rails rails.old) r.0 }
    requires place { at < length (R.states rails.old r.0).rows }
    requires some { (row : TheRow) → slice_get (R.states rails.old r.0).rows at ≡ Some row → 0 < row.enables }
    ensures given_up { (row : TheRow) → slice_get (R.states rails.old r.0).rows at ≡ Some row → ChangesBook r.0 (record (R.states rails.old r.0) { rows = slice_set (R.states rails.old r.0).rows at (record row { enables = row.enables - 1 }) }) (shown_by R.board R.rails R.bits R.states rails.old) (shown_by R.board R.rails R.bits R.states rails.new) }
    ensures fits { R.fits rails.new }
    ensures board { R.board rails.new ≡ R.board rails.old }
    ensures rails { R.rails rails.new ≡ R.rails rails.old }
    ensures base { R.base rails.new ≡ R.base rails.old }
{
    let state = rails.state_mut(r);
    let enables = state.rows()[at].enables;
    state.set_enables(at, enables - 1);
}

/// Gives up an enable of a worker's handle, and then switches off what is idle of its chain, from
/// below. The enable stays given up wherever the call ends.
pub(crate) fn disable<R: Rails, W: Wire>(
    alloc: Global,
    board: &Board,
    rails: &mut R,
    wire: &mut W,
    mine: &Mine,
    worker: u16,
    keep: bool,
    handle: &Handle,
) -> Result<Outcome, AllocError>
    requires valid { IsValid board.now }
    requires untied { IsUntied board.now }
    requires no_loads { CountsNoLoads board.now }
    requires fits { R.fits rails.old }
    requires board { R.board rails.old ≡ board.now }
    requires ready { IsReady (placed (shown_by R.board R.rails R.bits R.states rails.old) mine.now worker) (Call.Disable handle.now) }
    ensures exact { IfOk result (λ outcome. Performs (Call.Disable handle.now) (placed (shown_by R.board R.rails R.bits R.states rails.old) mine.now worker) (placed (shown_by R.board R.rails R.bits R.states rails.new) mine.now worker) (told_by W.accepted W.plan W.faults wire.old) (told_by W.accepted W.plan W.faults wire.new) keep outcome.answer outcome.writes) }
    ensures err { OnErr result (Leaves (Call.Disable handle.now) (placed (shown_by R.board R.rails R.bits R.states rails.old) mine.now worker) (placed (shown_by R.board R.rails R.bits R.states rails.new) mine.now worker) (told_by W.accepted W.plan W.faults wire.old) (told_by W.accepted W.plan W.faults wire.new)) }
    ensures fits { R.fits rails.new }
    ensures board { R.board rails.new ≡ R.board rails.old }
    ensures rails { R.rails rails.new ≡ R.rails rails.old }
    ensures base { R.base rails.new ≡ R.base rails.old }
{
    let Some(r) = mine.rail_of(handle) else {
        return Ok(without_writes(alloc, Answer::NoHandle));
    };
    let at = rails.state(r).place_of(worker, handle).unwrap();
    if let Some(said) = refusal(rails.state(r), at) {
        return Ok(without_writes(alloc, said));
    }
    give_up(rails, r, at);
    take_down(alloc, board, rails, wire, keep, r)
}
