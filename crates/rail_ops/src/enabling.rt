ghost use Rattle.std.specs.Prelude.{◌≡◌, ◌<◌, ◌≤◌, ◌+◌, ◌*◌, ◌^◌, ◌∷◌, [], if◌then◌else◌, ℕ, false, All, Contains, Some, None, length, option_map, slice_get, slice_set, take, IfOk, IfSome, OnErr};
ghost use Rattle.board.specs.declared.rail.Rail.{Rail as TheRail};
ghost use Rattle.board.specs.declared.rail_id.RailId.{RailId as TheRailId};
ghost use Rattle.board.specs.Valid.{IsValid};
ghost use Rattle.chip_regs.specs.Field.{IsField, FitsField};
ghost use Rattle.chip_regs.specs.declared.field.Field.{Field as TheField};
ghost use Rattle.rail_law.specs.Moves.{update_of_field, writes_of};
ghost use Rattle.reg_outside.specs.Bus.{told_by};
ghost use Rattle.use_counts.specs.declared.handle_row.HandleRow.{HandleRow as TheRow};
ghost use Rattle.plain_board.specs.declared.plain.Plain.{Plain};
ghost use Rattle.plain_board.specs.Plan.{chain, upward};
ghost use Rattle.plain_board.specs.Untied.{CountsNoLoads, IsUntied};
ghost use Rattle.rail_ops.specs.Exact.{Leaves, Performs};
ghost use Rattle.rail_ops.specs.Inside.Enabling.{enable_refusal};
ghost use Rattle.rail_ops.specs.Inside.Raised.{ChangesBook};
ghost use Rattle.rail_ops.specs.Inside.Rising.{LeadsUp, rises};
ghost use Rattle.rail_ops.specs.Sight.{IsReady, Shows, ShowsSame, placed, shown_by};

use crate::looking::{rail_at, seen_on};
use crate::outcome::{Outcome, without_writes};
use crate::rising::{Rise, come_up};
use board::{Board, Handle, RailId, Write};
use chip_regs::Field;
use item_list::Items;
use rail_state::{RailState, Rails};
use reg_outside::Wire;
use rows::{Answer, Call};
use std::alloc::{AllocError, Global};
use use_counts::Mine;

/// How many enables a handle can have.
const MOST_ENABLES: u32 = 65_535;

/// The register write that puts 1 into a field.
fn write_of(field: &Field) -> Write
    requires field { IsField field.now }
    requires room { FitsField field.now 1 }
    ensures { result ≡ update_of_field (Some field.now) 1 }
{
    Write {
        chip: field.chip,
        reg: field.reg,
        mask: field.mask,
        bits: 1 << field.shift,
    }
}

/// The register writes that switch on a rail and those above it that are off, from above.
fn writes_up<R: Rails>(
    alloc: Global,
    board: &Board,
    rails: &mut R,
    most: usize,
    r: Option<RailId>,
) -> Result<Vec<Write>, AllocError>
    requires valid { IsValid board.now }
    requires fits { R.fits rails.old }
    requires board { R.board rails.old ≡ board.now }
    requires there { IfSome r (λ id. id.0 < length board.now.rails) }
    requires up { LeadsUp board.now most (option_map (λ (id : TheRailId). id.0) r) }
    requires held { All (λ i. Contains (R.rails rails.old) i) (upward board.now.graph most (option_map (λ (id : TheRailId). id.0) r)) }
    ensures writes { IfOk result (λ writes. (plain : Plain) → Shows (shown_by R.board R.rails R.bits R.states rails.old) plain → writes.items ≡ writes_of (R.board rails.old) (rises (R.board rails.old) plain.regs (upward board.now.graph most (option_map (λ (id : TheRailId). id.0) r)))) }
    ensures fits { R.fits rails.new }
    ensures same { ShowsSame (shown_by R.board R.rails R.bits R.states rails.old) (shown_by R.board R.rails R.bits R.states rails.new) }
    ensures base { R.base rails.new ≡ R.base rails.old }
{
    let Some(r) = r else {
        return Ok(Vec::new(alloc));
    };
    let rail = rail_at(board, r);
    let mut writes = writes_up(alloc, board, rails, most - 1, rail.supply)?;
    if seen_on(board, rails, r) {
        return Ok(writes);
    }
    writes.push(write_of(&rail.desc.enable))?;
    Ok(writes)
}

/// Why a handle of a rail can't be enabled once more, where it can't.
fn refusal(state: &RailState, at: usize) -> Option<Answer>
    requires { at < length state.now.rows }
    ensures { (row : TheRow) → slice_get state.now.rows at ≡ Some row → result ≡ enable_refusal state.now.suspended row.enables }
{
    if state.is_suspended() {
        Some(Answer::Suspended)
    } else if state.rows()[at].enables == MOST_ENABLES {
        Some(Answer::CountFull {
            enables: MOST_ENABLES,
        })
    } else {
        None
    }
}

/// Counts one enable more of a rail's handle.
fn count<R: Rails>(rails: &mut R, r: RailId, at: usize)
    requires fits { R.fits rails.old }
    requires held { Contains (R.rails rails.old) r.0 }
    requires place { at < length (R.states rails.old r.0).rows }
    requires room { (row : TheRow) → slice_get (R.states rails.old r.0).rows at ≡ Some row → row.enables + 1 < 2 ^ 32 }
    ensures counted { (row : TheRow) → slice_get (R.states rails.old r.0).rows at ≡ Some row → ChangesBook r.0 (record (R.states rails.old r.0) { rows = slice_set (R.states rails.old r.0).rows at (record row { enables = row.enables + 1 }) }) (shown_by R.board R.rails R.bits R.states rails.old) (shown_by R.board R.rails R.bits R.states rails.new) }
    ensures fits { R.fits rails.new }
    ensures board { R.board rails.new ≡ R.board rails.old }
    ensures rails { R.rails rails.new ≡ R.rails rails.old }
    ensures base { R.base rails.new ≡ R.base rails.old }
{
    let state = rails.state_mut(r);
    let enables = state.rows()[at].enables;
    state.set_enables(at, enables + 1);
}

/// What is answered where the bus refused a rail's on bit after so many moves.
pub(crate) fn fault(alloc: Global, board: &Board, r: RailId, applied: u32) -> Answer
    requires there { r.0 < length board.now.rails }
    ensures { IfSome (slice_get board.now.rails r.0) (λ rail. result ≡ Answer.Fault rail.desc.enable.chip rail.desc.enable.reg applied []) }
{
    let field = &rail_at(board, r).desc.enable;
    Answer::Fault {
        chip: field.chip,
        reg: field.reg,
        applied,
        now: Items::new(alloc),
    }
}

/// The register writes that the call is to keep, if it keeps them: those of all rails of the chain that
/// are off.
fn kept_writes<R: Rails>(
    alloc: Global,
    board: &Board,
    rails: &mut R,
    keep: bool,
    r: RailId,
) -> Result<Vec<Write>, AllocError>
    requires valid { IsValid board.now }
    requires fits { R.fits rails.old }
    requires board { R.board rails.old ≡ board.now }
    requires there { r.0 < length board.now.rails }
    requires held { All (λ i. Contains (R.rails rails.old) i) (chain board.now r.0) }
    ensures writes { IfOk result (λ writes. (plain : Plain) → Shows (shown_by R.board R.rails R.bits R.states rails.old) plain → writes.items ≡ (if keep then writes_of (R.board rails.old) (rises (R.board rails.old) plain.regs (chain board.now r.0)) else [])) }
    ensures fits { R.fits rails.new }
    ensures same { ShowsSame (shown_by R.board R.rails R.bits R.states rails.old) (shown_by R.board R.rails R.bits R.states rails.new) }
    ensures base { R.base rails.new ≡ R.base rails.old }
{
    if !keep {
        return Ok(Vec::new(alloc));
    }
    writes_up(alloc, board, rails, board.rails.len(), Some(r))
}

/// Counts the enable where all rails came up, and says what is answered.
fn settle<R: Rails>(
    alloc: Global,
    board: &Board,
    rails: &mut R,
    r: RailId,
    at: usize,
    rise: Rise,
) -> Answer
    requires fits { R.fits rails.old }
    requires held { Contains (R.rails rails.old) r.0 }
    requires place { at < length (R.states rails.old r.0).rows }
    requires room { (row : TheRow) → slice_get (R.states rails.old r.0).rows at ≡ Some row → row.enables + 1 < 2 ^ 32 }
    requires refused { IfSome rise.refused (λ id. id.0 < length board.now.rails) }
    ensures counted { rise.refused ≡ None → (row : TheRow) → slice_get (R.states rails.old r.0).rows at ≡ Some row → ChangesBook r.0 (record (R.states rails.old r.0) { rows = slice_set (R.states rails.old r.0).rows at (record row { enables = row.enables + 1 }) }) (shown_by R.board R.rails R.bits R.states rails.old) (shown_by R.board R.rails R.bits R.states rails.new) }
    ensures answered { rise.refused ≡ None → result ≡ Answer.OkTime rise.delay }
    ensures stopped { (id : TheRailId) → rise.refused ≡ Some id → ShowsSame (shown_by R.board R.rails R.bits R.states rails.old) (shown_by R.board R.rails R.bits R.states rails.new) }
    ensures fault { (id : TheRailId) (rail : TheRail) → rise.refused ≡ Some id → slice_get board.now.rails id.0 ≡ Some rail → result ≡ Answer.Fault rail.desc.enable.chip rail.desc.enable.reg rise.made [] }
    ensures fits { R.fits rails.new }
    ensures board { R.board rails.new ≡ R.board rails.old }
    ensures rails { R.rails rails.new ≡ R.rails rails.old }
    ensures base { R.base rails.new ≡ R.base rails.old }
{
    match rise.refused {
        Some(id) => fault(alloc, board, id, rise.made),
        None => {
            count(rails, r, at);
            Answer::OkTime { delay: rise.delay }
        }
    }
}

/// Enables a worker's handle once more: the rails of its chain that are off are switched on, from
/// above, and the enable is counted where the bus let them all.
pub(crate) fn enable<R: Rails, W: Wire>(
    alloc: Global,
    board: &Board,
    rails: &mut R,
    wire: &mut W,
    mine: &Mine,
    worker: u16,
    keep: bool,
    handle: &Handle,
) -> Result<Outcome, AllocError>
    requires valid { IsValid board.now }
    requires untied { IsUntied board.now }
    requires no_loads { CountsNoLoads board.now }
    requires fits { R.fits rails.old }
    requires board { R.board rails.old ≡ board.now }
    requires ready { IsReady (placed (shown_by R.board R.rails R.bits R.states rails.old) mine.now worker) (Call.Enable handle.now) }
    ensures exact { IfOk result (λ outcome. Performs (Call.Enable handle.now) (placed (shown_by R.board R.rails R.bits R.states rails.old) mine.now worker) (placed (shown_by R.board R.rails R.bits R.states rails.new) mine.now worker) (told_by W.accepted W.plan W.faults wire.old) (told_by W.accepted W.plan W.faults wire.new) keep outcome.answer outcome.writes) }
    ensures err { OnErr result (Leaves (Call.Enable handle.now) (placed (shown_by R.board R.rails R.bits R.states rails.old) mine.now worker) (placed (shown_by R.board R.rails R.bits R.states rails.new) mine.now worker) (told_by W.accepted W.plan W.faults wire.old) (told_by W.accepted W.plan W.faults wire.new)) }
    ensures fits { R.fits rails.new }
    ensures board { R.board rails.new ≡ R.board rails.old }
    ensures rails { R.rails rails.new ≡ R.rails rails.old }
    ensures base { R.base rails.new ≡ R.base rails.old }
{
    let Some(r) = mine.rail_of(handle) else {
        return Ok(without_writes(alloc, Answer::NoHandle));
    };
    let at = rails.state(r).place_of(worker, handle).unwrap();
    if let Some(said) = refusal(rails.state(r), at) {
        return Ok(without_writes(alloc, said));
    }
    let mut writes = kept_writes(alloc, board, rails, keep, r)?;
    let rise = come_up(board, rails, wire, board.rails.len(), Some(r))?;
    writes.truncate(rise.made as usize);
    Ok(Outcome {
        answer: settle(alloc, board, rails, r, at, rise),
        writes: Items::from_vec(writes),
    })
}
