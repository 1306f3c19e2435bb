ghost use Rattle.std.specs.Prelude.{◌≡◌, ◌<◌, ◌≤◌, ◌+◌, ◌^◌, ◌==◌, ◌∷◌, ◌++◌, [], None, Some, false, length, map, if◌then◌else◌, IfOk, OnOk};
ghost use Rattle.board.specs.Lone.{IsLone};
ghost use Rattle.board.specs.Rail.{uv, IsAllowed};
ghost use Rattle.board.specs.Valid.{IsValid};
ghost use Rattle.rows.specs.Row.{NamesRail};
ghost use Rattle.rail_law.specs.Law.{Law};
ghost use Rattle.plain_board.specs.Answer.{answer, plan};
ghost use Rattle.plain_board.specs.History.{stop_of, made_of, is_fault};
ghost use Rattle.plain_board.specs.Law.{Throughout};
ghost use Rattle.plain_board.specs.Handles.{open_of};
ghost use Rattle.plain_board.specs.Inv.{Inv};
ghost use Rattle.plain_board.specs.Untied.{IsBuiltCall, HoldFields};
ghost use Rattle.regulator_main.specs.Desk.{Moves, Performs, tries_for};
ghost use Rattle.regulator_main.specs.Inside.Way.{moves_to};
ghost use Rattle.regulator_main.specs.Walk.{Tried};

use crate::requests::{bounds, count_own, excludes, kept_request, open_of, put_request};
use crate::walk::settle;
use board::{Board, Event, Handle, Rail, RailId};
use item_list::Items;
use plain_board::{Plain, hold_fields};
use ramp_delay::time;
use reg_outside::Wire;
use rows::{Answer, Call};
use std::alloc::{AllocError, Global};
use use_counts::HandleRow;

/// How many handles a worker can have open.
const MOST_HANDLES: usize = 64;

/// The board's one rail.
fn lone_rail(board: &Board) -> &Rail
    requires lone { IsLone board.now }
    ensures { board.now.rails ≡ result.now ∷ [] }
{
    &board.rails.as_slice()[0]
}

/// What a `get` of a worker's handle is answered.
fn get(board: &Board, plain: &Plain, worker: u16, handle: &Handle) -> Answer
    requires lone { IsLone board.now }
    requires inv { Inv board.now plain.now }
    ensures answer { answer board.now plain.now worker (Call.Get handle.now) None ≡ (result, plain.now) }
    ensures calm { is_fault result ≡ false }
{
    match open_of(plain.handles.as_slice(), worker, handle) {
        None => Answer::NoHandle,
        Some(_) => Answer::OkUv {
            uv: lone_rail(board).uv(&plain.regs),
        },
    }
}

/// A rail with its value, where that isn't the one before.
fn changed(alloc: Global, before: u32, now: u32) -> Result<Items<(RailId, u32)>, AllocError>
    ensures { IfOk result (λ rails. rails ≡ (if before == now then [] else (record { 0 = 0 }, now) ∷ [])) }
{
    let mut rails = Items::new(alloc);
    if before != now {
        rails.push((RailId(0), now))?;
    }
    Ok(rails)
}

/// Tells the listeners of the board's one rail what it does.
fn tell(events: &mut Items<Items<Event>>, event: Event) -> Result<(), AllocError>
    requires one { length events.old ≡ 1 }
    ensures { OnOk result (events.new ≡ map (λ told. told ++ event ∷ []) events.old) }
{
    let Some(mut told) = events.pop() else {
        unreachable!()
    };
    told.push(event)?;
    events.push(told)
}

/// Tells where a change of the voltage to `target` µV has ended.
fn tell_end(events: &mut Items<Items<Event>>, uv: u32, target: u32) -> Result<(), AllocError>
    requires one { length events.old ≡ 1 }
    ensures { OnOk result (events.new ≡ map (λ told. told ++ (if uv == target then Event.VoltageChange uv else Event.AbortVoltageChange uv) ∷ []) events.old) }
{
    if uv == target {
        tell(events, Event::VoltageChange { uv })
    } else {
        tell(events, Event::AbortVoltageChange { uv })
    }
}

/// Moves the board's one rail to its target, for a request of a worker's handle: the request stands
/// once the rail is there. Where the wire refuses an update, the old request stands if the rail still
/// meets it. Listeners are told before the first update, and after the last one or the refused one.
fn move_to<W: Wire>(
    alloc: Global,
    board: &Board,
    plain: &mut Plain,
    wire: &mut W,
    worker: u16,
    handle: &Handle,
    entry: &(RailId, HandleRow),
    rail: &Rail,
    request: (u32, u32),
    target: u32,
) -> Result<Answer, AllocError>
    requires valid { IsValid board.now }
    requires lone { IsLone board.now }
    requires fields { HoldFields board.now plain.old.regs }
    requires inv { Inv board.now plain.old }
    requires rail { board.now.rails ≡ rail.now ∷ [] }
    requires entry { open_of plain.old.handles worker handle.now.bytes ≡ Some entry.now }
    requires allowed { IsAllowed rail.now target }
    ensures moves { IfOk result (λ said. Moves board.now plain.old plain.new worker handle.now request rail.now target said (W.accepted wire.old) (W.accepted wire.new) (W.faults wire.old) (W.faults wire.new)) }
    ensures tried { IfOk result (λ said. Tried (tries_for (moves_to (record { 0 = 0 }) rail.now (uv rail.now plain.old.regs) target) said) (W.plan wire.old) (W.plan wire.new)) }
    ensures handles { OnOk result (length plain.new.handles ≡ length plain.old.handles) }
{
    let before = rail.uv(&plain.regs);
    let delay = u64::from(time(&rail.limits.times, rail.desc.ramp, before, target));
    if before == target {
        put_request(&mut plain.handles, worker, handle, Some(request));
        return Ok(Answer::OkSet { uv: target, delay });
    }
    let change = Event::PreVoltageChange {
        old: before,
        new: target,
    };
    tell(&mut plain.events, change)?;
    let settled = settle(board, RailId(0), rail, &mut plain.regs, wire, target);
    let uv = rail.uv(&plain.regs);
    tell_end(&mut plain.events, uv, target)?;
    match settled {
        Ok(()) => {
            put_request(&mut plain.handles, worker, handle, Some(request));
            Ok(Answer::OkSet { uv, delay })
        }
        Err((field, made)) => {
            let kept = kept_request(uv, entry.1.request);
            put_request(&mut plain.handles, worker, handle, kept);
            Ok(Answer::Fault {
                chip: field.chip,
                reg: field.reg,
                applied: made,
                now: changed(alloc, before, uv)?,
            })
        }
    }
}

/// A `set` of a worker's handle: its rail is moved to the least value that meets the request and
/// all standing ones.
fn set<W: Wire>(
    alloc: Global,
    board: &Board,
    plain: &mut Plain,
    wire: &mut W,
    worker: u16,
    handle: &Handle,
    request: (u32, u32),
) -> Result<Answer, AllocError>
    requires valid { IsValid board.now }
    requires lone { IsLone board.now }
    requires fields { HoldFields board.now plain.old.regs }
    requires inv { Inv board.now plain.old }
    ensures performs { IfOk result (λ said. Performs board.now plain.old plain.new worker (Call.Set handle.now request.0 request.1) said (W.accepted wire.old) (W.accepted wire.new) (W.faults wire.old) (W.faults wire.new)) }
    ensures tried { IfOk result (λ said. Tried (tries_for (plan board.now plain.old worker (Call.Set handle.now request.0 request.1)) said) (W.plan wire.old) (W.plan wire.new)) }
    ensures handles { OnOk result (length plain.new.handles ≡ length plain.old.handles) }
{
    let Some(entry) = open_of(plain.handles.as_slice(), worker, handle) else {
        return Ok(Answer::NoHandle);
    };
    if plain.suspended {
        return Ok(Answer::Suspended);
    }
    if request.1 < request.0 {
        return Ok(Answer::BadRange {
            lo: request.0,
            hi: request.1,
        });
    }
    let rail = lone_rail(board);
    let handles = plain.handles.as_slice();
    let (least, greatest) = bounds(handles, worker, handle, RailId(0), request);
    let Some(target) = rail.least_within(least, greatest) else {
        return Ok(Answer::NoValue);
    };
    move_to(
        alloc, board, plain, wire, worker, handle, &entry, rail, request, target,
    )
}

/// Opens a handle that enables, asks and draws nothing.
fn open(
    board: &Board,
    plain: &mut Plain,
    worker: u16,
    handle: &Handle,
    rail: RailId,
    exclusive: bool,
) -> Result<Answer, AllocError>
    requires lone { IsLone board.now }
    requires inv { Inv board.now plain.old }
    requires rail { rail.0 < length board.now.rails }
    requires few { length plain.old.handles < 2 ^ 32 }
    ensures answer { IfOk result (λ said. answer board.now plain.old worker (Call.Open handle.now rail exclusive) None ≡ (said, plain.new)) }
    ensures calm { IfOk result (λ said. is_fault said ≡ false) }
    ensures handles { OnOk result (length plain.new.handles ≤ length plain.old.handles + 1) }
{
    let handles = plain.handles.as_slice();
    if open_of(handles, worker, handle).is_some() {
        return Ok(Answer::HandleOpen);
    }
    if count_own(handles, worker) >= MOST_HANDLES {
        return Ok(Answer::HandlesFull { handles: 64 });
    }
    if excludes(handles, exclusive) {
        return Ok(Answer::Taken {
            handles: handles.len() as u32,
        });
    }
    let row = HandleRow {
        worker,
        handle: *handle,
        enables: 0,
        request: None,
        load: 0,
        cursor: None,
        exclusive,
    };
    plain.handles.push((rail, row))?;
    Ok(Answer::Ok)
}

/// Performs a worker's call: what it answers is what the plain board answers, its moves go first on
/// the wire and then into the registers, and it stops at the first update that the wire refuses.
pub(crate) fn perform<W: Wire>(
    alloc: Global,
    board: &Board,
    plain: &mut Plain,
    wire: &mut W,
    worker: u16,
    call: &Call,
) -> Result<Answer, AllocError>
    requires valid { IsValid board.now }
    requires lone { IsLone board.now }
    requires inv { Inv board.now plain.old }
    requires rail { NamesRail board.now call.now }
    requires built { IsBuiltCall call.now }
    requires few { length plain.old.handles < 2 ^ 32 }
    ensures performs { IfOk result (λ said. Performs board.now plain.old plain.new worker call.now said (W.accepted wire.old) (W.accepted wire.new) (W.faults wire.old) (W.faults wire.new)) }
    ensures tried { IfOk result (λ said. Tried (tries_for (plan board.now plain.old worker call.now) said) (W.plan wire.old) (W.plan wire.new)) }
    ensures lawful { IfOk result (λ said. Throughout (Law board.now) board.now plain.old.regs (made_of (stop_of said) (plan board.now plain.old worker call.now))) }
    ensures inv { OnOk result (Inv board.now plain.new) }
    ensures handles { OnOk result (length plain.new.handles ≤ length plain.old.handles + 1) }
{
    hold_fields(board, &plain.regs);
    match call {
        Call::Open {
            handle,
            rail,
            exclusive,
        } => open(board, plain, worker, handle, *rail, *exclusive),
        Call::Set { handle, lo, hi } => set(alloc, board, plain, wire, worker, handle, (*lo, *hi)),
        Call::Get { handle } => Ok(get(board, plain, worker, handle)),
        _ => unreachable!(),
    }
}
