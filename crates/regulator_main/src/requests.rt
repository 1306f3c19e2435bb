ghost use Rattle.std.specs.Prelude.{◌≡◌, ◌<◌, ◌&&◌, ◌||◌, ◌∷◌, nat_lt, ℕ, Some, filter_map, length, position, slice_get};
ghost use Rattle.std.specs.List.{list_all, list_any};
ghost use Rattle.board.specs.Rail.{is_within};
ghost use Rattle.plain_board.specs.Answer.{kept_request, with_request};
ghost use Rattle.plain_board.specs.Handles.{is_own, open_of, count_own, with_row};
ghost use Rattle.plain_board.specs.Requests.{meets};
ghost use Rattle.regulator_main.specs.Inside.Asked.{asks, meets_any};

use board::{Handle, RailId};
use item_list::Items;
use use_counts::HandleRow;

/// Whether the row is that of the worker's handle of this name.
fn is_own(row: &(RailId, HandleRow), worker: u16, name: &Handle) -> bool
    ensures { result ≡ is_own worker name.now.bytes row.now }
{
    row.1.worker == worker && row.1.handle.as_str() == name.as_str()
}

/// A handle of a list, with its rail.
fn entry_at(handles: &[(RailId, HandleRow)], at: usize) -> (RailId, HandleRow)
    requires { at < length handles.now }
    ensures { slice_get handles.now at ≡ Some result }
{
    handles[at]
}

/// The place of the worker's handle of this name.
fn place_of(handles: &[(RailId, HandleRow)], worker: u16, name: &Handle) -> Option<usize>
    ensures { result ≡ position (is_own worker name.now.bytes) handles.now }
{
    handles.iter().position(|row| is_own(row, worker, name))
}

/// The worker's open handle of this name, with its rail.
pub(crate) fn open_of(
    handles: &[(RailId, HandleRow)],
    worker: u16,
    name: &Handle,
) -> Option<(RailId, HandleRow)>
    ensures { result ≡ open_of handles.now worker name.now.bytes }
{
    match place_of(handles, worker, name) {
        Some(at) => Some(entry_at(handles, at)),
        None => None,
    }
}

/// How many open handles a worker has.
pub(crate) fn count_own(handles: &[(RailId, HandleRow)], worker: u16) -> usize
    ensures { result ≡ count_own handles.now worker }
{
    handles.iter().filter(|row| row.1.worker == worker).count()
}

/// Whether a handle is alone on its rail.
fn any_exclusive(handles: &[(RailId, HandleRow)]) -> bool
    ensures { result ≡ list_any (λ entry. entry.1.exclusive) handles.now }
{
    handles.iter().any(|row| row.1.exclusive)
}

/// Whether a new handle can't be opened beside these: one of them, or the new one, is to be alone.
pub(crate) fn excludes(handles: &[(RailId, HandleRow)], exclusive: bool) -> bool
    ensures { result ≡ (list_any (λ entry. entry.1.exclusive) handles.now || exclusive && nat_lt 0 (length handles.now)) }
{
    any_exclusive(handles) || exclusive && !handles.is_empty()
}

/// A handle that asks for something else.
fn asking(row: &HandleRow, request: Option<(u32, u32)>) -> HandleRow
    ensures { result ≡ with_request request row.now }
{
    HandleRow {
        worker: row.worker,
        handle: row.handle,
        enables: row.enables,
        request,
        load: row.load,
        cursor: row.cursor,
        exclusive: row.exclusive,
    }
}

/// The worker's handle of this name asks for something else.
pub(crate) fn put_request(
    handles: &mut Items<(RailId, HandleRow)>,
    worker: u16,
    name: &Handle,
    request: Option<(u32, u32)>,
)
    ensures { handles.new ≡ with_row handles.old worker name.now.bytes (with_request request) }
{
    for at in 0..handles.len() {
        let entry = entry_at(handles.as_slice(), at);
        if is_own(&entry, worker, name) {
            handles.set(at, (entry.0, asking(&entry.1, request)));
        }
    }
}

/// What a row asks of a rail, unless it is that of the worker's handle of this name.
fn asks(row: &(RailId, HandleRow), worker: u16, name: &Handle, id: RailId) -> Option<(u32, u32)>
    ensures { result ≡ asks worker name.now.bytes id.0 row.now }
{
    if row.0 == id && !is_own(row, worker, name) {
        row.1.request
    } else {
        None
    }
}

/// The bounds of the values that also meet a request, where there is one.
fn narrowed(bounds: (u32, u32), request: Option<(u32, u32)>) -> (u32, u32)
    ensures { (uv : ℕ) → is_within (Some result) uv ≡ (is_within (Some bounds) uv && meets_any uv request) }
{
    match request {
        Some((lo, hi)) => (bounds.0.max(lo), bounds.1.min(hi)),
        None => bounds,
    }
}

/// The least and the greatest value that meet a request and all standing ones of other handles on
/// the rail.
pub(crate) fn bounds(
    handles: &[(RailId, HandleRow)],
    worker: u16,
    name: &Handle,
    id: RailId,
    request: (u32, u32),
) -> (u32, u32)
    ensures { (uv : ℕ) → list_all (meets uv) (request ∷ filter_map (asks worker name.now.bytes id.0) handles.now) ≡ is_within (Some result) uv }
{
    let mut all = request;
    for row in handles {
        all = narrowed(all, asks(row, worker, name, id));
    }
    all
}

/// A request that still stands where the rail stands at this value.
pub(crate) fn kept_request(uv: u32, request: Option<(u32, u32)>) -> Option<(u32, u32)>
    ensures { result ≡ kept_request uv request }
{
    match request {
        Some((lo, hi)) if lo <= uv && uv <= hi => request,
        _ => None,
    }
}
