ghost use Rattle.std.specs.Prelude.{◌≡◌, ◌<◌, ◌+◌, ◌^◌, ◌∷◌, ◌++◌, [], ℕ, List, if◌then◌else◌, bytes_eq, false, All, Contains, Some, None, length, remove, slice_get, IfOk, OnErr, OnOk};
ghost use Rattle.std.specs.List.{list_any};
ghost use Rattle.board.specs.Valid.{IsValid};
ghost use Rattle.use_counts.specs.declared.handle_row.HandleRow.{HandleRow as TheRow};
ghost use Rattle.use_counts.specs.Uses.{is_row_of, rail_named};
ghost use Rattle.plain_board.specs.declared.plain.Plain.{Plain};
ghost use Rattle.plain_board.specs.Answer.{new_row};
ghost use Rattle.plain_board.specs.History.{is_fault};
ghost use Rattle.plain_board.specs.Refusals.{excludes};
ghost use Rattle.plain_board.specs.Untied.{CountsNoLoads, IsUntied};
ghost use Rattle.rail_ops.specs.Inside.Opening.{IsAnswered, own_refusal, rail_refusal};
ghost use Rattle.rail_ops.specs.Inside.Raised.{ChangesBook};
ghost use Rattle.rail_ops.specs.Sight.{IsReady, MayBe, ShowsSame, placed, shown_by};

use board::{Board, Handle, RailId};
use rail_state::Rails;
use rows::{Answer, Call};
use std::alloc::AllocError;
use use_counts::{HandleRow, Mine};

/// How many handles a worker can have open.
const MOST_HANDLES: usize = 64;

/// A worker's number has 16 bits.
pub(crate) fn has_number(row: &HandleRow)
    ensures { row.now.worker < 65536 }
{
    let _worker = row.worker;
}

/// So have the numbers of the workers of some handles.
fn have_numbers(rows: &[HandleRow])
    ensures { All (λ row. row.worker < 65536) rows.now }
{
    for row in rows {
        has_number(row);
    }
}

/// A new handle enables, asks and draws nothing.
fn new_row(worker: u16, handle: &Handle, exclusive: bool) -> HandleRow
    ensures { result ≡ new_row worker handle.now exclusive }
{
    HandleRow {
        worker,
        handle: *handle,
        enables: 0,
        request: None,
        load: 0,
        cursor: None,
        exclusive,
    }
}

/// Whether one of these handles is to be alone.
fn any_exclusive(rows: &[HandleRow]) -> bool
    ensures { result ≡ list_any (λ row. row.exclusive) rows.now }
{
    rows.iter().any(|row| row.exclusive)
}

/// Whether a new handle can't be opened beside these: one of them, or the new one, is to be alone.
fn excludes(rows: &[HandleRow], exclusive: bool) -> bool
    ensures { result ≡ (excludes exclusive rows.now).0 }
{
    any_exclusive(rows) || exclusive && !rows.is_empty()
}

/// Puts a handle last on its rail. At `Err` nothing has changed.
fn add<R: Rails>(rails: &mut R, r: RailId, row: HandleRow) -> Result<(), AllocError>
    requires fits { R.fits rails.old }
    requires held { Contains (R.rails rails.old) r.0 }
    requires room { length (R.states rails.old r.0).rows + 1 < 2 ^ 32 }
    requires new { All (λ other. is_row_of other.worker other.handle.bytes row ≡ false) (R.states rails.old r.0).rows }
    ensures ok { OnOk result (ChangesBook r.0 (record (R.states rails.old r.0) { rows = (R.states rails.old r.0).rows ++ row ∷ [] }) (shown_by R.board R.rails R.bits R.states rails.old) (shown_by R.board R.rails R.bits R.states rails.new)) }
    ensures err { OnErr result (ShowsSame (shown_by R.board R.rails R.bits R.states rails.old) (shown_by R.board R.rails R.bits R.states rails.new)) }
    ensures fits { R.fits rails.new }
    ensures base { R.base rails.new ≡ R.base rails.old }
{
    rails.state_mut(r).add(row)
}

/// Takes out a handle of a rail.
fn take_out<R: Rails>(rails: &mut R, r: RailId, at: usize)
    requires fits { R.fits rails.old }
    requires held { Contains (R.rails rails.old) r.0 }
    requires place { at < length (R.states rails.old r.0).rows }
    ensures book { ChangesBook r.0 (record (R.states rails.old r.0) { rows = remove (R.states rails.old r.0).rows at }) (shown_by R.board R.rails R.bits R.states rails.old) (shown_by R.board R.rails R.bits R.states rails.new) }
    ensures fits { R.fits rails.new }
    ensures base { R.base rails.new ≡ R.base rails.old }
{
    rails.state_mut(r).remove(at);
}

/// Takes out the handle that came last on a rail.
fn take_last<R: Rails>(rails: &mut R, r: RailId)
    requires fits { R.fits rails.old }
    requires held { Contains (R.rails rails.old) r.0 }
    requires some { 0 < length (R.states rails.old r.0).rows }
    ensures book { (rows : List TheRow) (last : TheRow) → (R.states rails.old r.0).rows ≡ rows ++ last ∷ [] → ChangesBook r.0 (record (R.states rails.old r.0) { rows = rows }) (shown_by R.board R.rails R.bits R.states rails.old) (shown_by R.board R.rails R.bits R.states rails.new) }
    ensures fits { R.fits rails.new }
    ensures base { R.base rails.new ≡ R.base rails.old }
{
    let last = rails.state(r).rows().len() - 1;
    take_out(rails, r, last);
}

/// Why a worker with these names can't open a handle of this one, where it can't.
fn own_refusal(mine: &Mine, handle: &Handle) -> Option<Answer>
    ensures { result ≡ own_refusal mine.now handle.now.bytes }
{
    if mine.rail_of(handle).is_some() {
        return Some(Answer::HandleOpen);
    }
    if mine.len() >= MOST_HANDLES {
        return Some(Answer::HandlesFull { handles: 64 });
    }
    None
}

/// Why no handle can be opened beside these, where none can.
fn rail_refusal(rows: &[HandleRow], exclusive: bool) -> Option<Answer>
    requires few { length rows.now < 2 ^ 32 }
    ensures { result ≡ rail_refusal exclusive rows.now }
{
    if excludes(rows, exclusive) {
        Some(Answer::Taken {
            handles: rows.len() as u32,
        })
    } else {
        None
    }
}

/// The handle is open from now on, on its rail and among the worker's names. At `Err` nothing has
/// changed.
fn enter<R: Rails>(
    rails: &mut R,
    mine: &mut Mine,
    r: RailId,
    row: HandleRow,
) -> Result<(), AllocError>
    requires fits { R.fits rails.old }
    requires held { Contains (R.rails rails.old) r.0 }
    requires room { length (R.states rails.old r.0).rows + 1 < 2 ^ 32 }
    requires new { All (λ other. is_row_of other.worker other.handle.bytes row ≡ false) (R.states rails.old r.0).rows }
    requires unnamed { rail_named mine.old row.handle.bytes ≡ None }
    ensures entered { OnOk result (ChangesBook r.0 (record (R.states rails.old r.0) { rows = (R.states rails.old r.0).rows ++ row ∷ [] }) (shown_by R.board R.rails R.bits R.states rails.old) (shown_by R.board R.rails R.bits R.states rails.new)) }
    ensures named { OnOk result ((name : List ℕ) → rail_named mine.new name ≡ (if bytes_eq row.handle.bytes name then Some r.0 else rail_named mine.old name)) }
    ensures more { OnOk result (length mine.new ≡ length mine.old + 1) }
    ensures same { OnErr result (ShowsSame (shown_by R.board R.rails R.bits R.states rails.old) (shown_by R.board R.rails R.bits R.states rails.new)) }
    ensures unchanged { OnErr result (mine.new ≡ mine.old) }
    ensures fits { R.fits rails.new }
    ensures base { R.base rails.new ≡ R.base rails.old }
{
    let handle = row.handle;
    add(rails, r, row)?;
    match mine.add(handle, r) {
        Ok(()) => Ok(()),
        Err(refused) => {
            take_last(rails, r);
            Err(refused)
        }
    }
}

/// Opens a handle of a worker on a rail. At `Err` nothing has changed.
pub(crate) fn open<R: Rails>(
    board: &Board,
    rails: &mut R,
    mine: &mut Mine,
    worker: u16,
    handle: Handle,
    r: RailId,
    exclusive: bool,
) -> Result<Answer, AllocError>
    requires valid { IsValid board.now }
    requires fits { R.fits rails.old }
    requires board { R.board rails.old ≡ board.now }
    requires there { r.0 < length board.now.rails }
    requires ready { IsReady (placed (shown_by R.board R.rails R.bits R.states rails.old) mine.old worker) (Call.Open handle r exclusive) }
    ensures answered { IfOk result (λ said. (plain : Plain) → MayBe (placed (shown_by R.board R.rails R.bits R.states rails.old) mine.old worker) plain → IsAnswered (Call.Open handle r exclusive) (placed (shown_by R.board R.rails R.bits R.states rails.old) mine.old worker) (placed (shown_by R.board R.rails R.bits R.states rails.new) mine.new worker) said plain) }
    ensures calm { IfOk result (λ said. is_fault said ≡ false) }
    ensures same { OnErr result (ShowsSame (shown_by R.board R.rails R.bits R.states rails.old) (shown_by R.board R.rails R.bits R.states rails.new)) }
    ensures unchanged { OnErr result (mine.new ≡ mine.old) }
    ensures fits { R.fits rails.new }
    ensures board { R.board rails.new ≡ R.board rails.old }
    ensures rails { R.rails rails.new ≡ R.rails rails.old }
    ensures base { R.base rails.new ≡ R.base rails.old }
{
    if let Some(said) = own_refusal(mine, &handle) {
        return Ok(said);
    }
    let rows = rails.state(r).rows();
    have_numbers(rows);
    if let Some(said) = rail_refusal(rows, exclusive) {
        return Ok(said);
    }
    enter(rails, mine, r, new_row(worker, &handle, exclusive))?;
    Ok(Answer::Ok)
}

/// Closes a worker's handle that has no enables.
pub(crate) fn close<R: Rails>(
    board: &Board,
    rails: &mut R,
    mine: &mut Mine,
    worker: u16,
    handle: &Handle,
) -> Answer
    requires valid { IsValid board.now }
    requires untied { IsUntied board.now }
    requires no_loads { CountsNoLoads board.now }
    requires fits { R.fits rails.old }
    requires board { R.board rails.old ≡ board.now }
    requires ready { IsReady (placed (shown_by R.board R.rails R.bits R.states rails.old) mine.old worker) (Call.Close handle.now) }
    ensures answered { (plain : Plain) → MayBe (placed (shown_by R.board R.rails R.bits R.states rails.old) mine.old worker) plain → IsAnswered (Call.Close handle.now) (placed (shown_by R.board R.rails R.bits R.states rails.old) mine.old worker) (placed (shown_by R.board R.rails R.bits R.states rails.new) mine.new worker) result plain }
    ensures calm { is_fault result ≡ false }
    ensures fits { R.fits rails.new }
    ensures base { R.base rails.new ≡ R.base rails.old }
    ensures board { R.board rails.new ≡ R.board rails.old }
    ensures rails { R.rails rails.new ≡ R.rails rails.old }
{
    let Some(r) = mine.rail_of(handle) else {
        return Answer::NoHandle;
    };
    let at = rails.state(r).place_of(worker, handle).unwrap();
    let enables = rails.state(r).rows()[at].enables;
    if enables > 0 {
        return Answer::StillEnabled { enables };
    }
    take_out(rails, r, at);
    mine.remove(handle);
    Answer::Ok
}
