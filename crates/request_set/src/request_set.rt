ghost use Rattle.std.specs.Prelude.{◌≡◌, ◌<◌, ◌^◌, ◌++◌, ◌∷◌, ℕ, [], Some, IsOk, IsSome, OnOk, OnErr, filter, fold, length, map, max, min, not, position, remove, slice_get, option_map};
ghost use Rattle.board.specs.Rail.{is_within};
ghost use Rattle.request_set.specs.Requests.{is_asked_by, without, with_asked, asked_by, meets_all, greatest_of, least_of, AskOnce};
ghost use Rattle.request_set.specs.Inside.{is_row_of, any, narrowed};

use crate::row::Row;
use board::Handle;
use item_list::Items;
use std::alloc::{AllocError, Global};
use std::marker::Model;

/// The bounds that any value meets, in µV.
const ANY: (u32, u32) = (0, u32::MAX);

/// What the handles of all workers ask of one rail: of each handle one request at most, in the order
/// in which they came. Contracts see the list of what is asked.
#[derive(Drop)]
pub struct RequestSet {
    rows: Items<Row>,
}

impl Model for RequestSet {
    ghost use Rattle.std.specs.Prelude.{List, map};
    ghost use Rattle.request_set.specs.Requests.{Asking};
    ghost use Rattle.request_set.specs.Inside.{asking_of, AreKept};

    ghost Value = { List Asking };

    ghost view = { λ set. map asking_of set.rows };

    ghost invariant = { λ set. AreKept (map asking_of set.rows) };
}

impl RequestSet {
    /// No requests. Takes no memory.
    pub fn new(alloc: Global) -> RequestSet
        ensures { result ≡ [] }
    {
        RequestSet {
            rows: Items::new(alloc),
        }
    }

    /// The worker's handle asks for a value of `lo..=hi` µV, and for nothing else. Its request is the
    /// last one. At `Err` nothing has changed; a handle that asks already is never refused.
    pub fn set(&mut self, worker: u16, handle: &Handle, lo: u32, hi: u32) -> Result<(), AllocError>
        ensures ok { OnOk result (self.new ≡ with_asked worker handle.now.bytes lo hi self.old) }
        ensures err { OnErr result (self.new ≡ self.old) }
        ensures replaced { IsSome (asked_by worker handle.now.bytes self.old) → IsOk result }
    {
        let row = Row {
            worker,
            handle: *handle,
            least: lo,
            greatest: hi,
        };
        let Some(at) = place_of(self.rows.as_slice(), worker, handle) else {
            return self.rows.push(row);
        };
        put_last(&mut self.rows, at, row);
        Ok(())
    }

    /// The worker's handle asks for nothing.
    pub fn withdraw(&mut self, worker: u16, handle: &Handle)
        ensures { self.new ≡ without worker handle.now.bytes self.old }
    {
        if let Some(at) = place_of(self.rows.as_slice(), worker, handle) {
            self.rows.remove(at);
        }
    }

    /// The least and the greatest value, in µV, that the worker's handle asks for, where it asks.
    pub fn request_of(&self, worker: u16, handle: &Handle) -> Option<(u32, u32)>
        ensures request { result ≡ asked_by worker handle.now.bytes self.now }
        ensures once { AskOnce self.now }
    {
        let at = place_of(self.rows.as_slice(), worker, handle)?;
        Some(asked_at(self.rows.as_slice(), at))
    }

    /// The least and the greatest value, in µV, that meet all requests; where no value does, the
    /// first is above the second. Where nothing is asked they are 0 and 4294967295.
    pub fn bounds(&self) -> (u32, u32)
        ensures within { (uv : ℕ) → uv < 2 ^ 32 → is_within (Some result) uv ≡ meets_all self.now uv }
        ensures lo { result.0 ≡ greatest_of (map (λ asking. asking.least) self.now) }
        ensures hi { result.1 ≡ least_of (map (λ asking. asking.greatest) self.now) }
    {
        bounds_of(self.rows.as_slice())
    }

    /// The bounds of all requests but that of the worker's handle, in µV.
    pub fn bounds_without(&self, worker: u16, handle: &Handle) -> (u32, u32)
        ensures within { (uv : ℕ) → uv < 2 ^ 32 → is_within (Some result) uv ≡ meets_all (without worker handle.now.bytes self.now) uv }
        ensures lo { result.0 ≡ greatest_of (map (λ asking. asking.least) (without worker handle.now.bytes self.now)) }
        ensures hi { result.1 ≡ least_of (map (λ asking. asking.greatest) (without worker handle.now.bytes self.now)) }
    {
        bounds_but(self.rows.as_slice(), worker, handle)
    }
}

/// Whether the row is that of the worker's handle.
fn is_row_of(row: &Row, worker: u16, handle: &Handle) -> bool
    ensures { result ≡ is_row_of worker handle.now.bytes row.now }
{
    row.worker == worker && row.handle.as_str() == handle.as_str()
}

/// The place of the worker's handle.
fn place_of(rows: &[Row], worker: u16, handle: &Handle) -> Option<usize>
    ensures { result ≡ position (is_row_of worker handle.now.bytes) rows.now }
{
    rows.iter().position(|row| is_row_of(row, worker, handle))
}

/// What is asked by the row at a place.
fn asked_at(rows: &[Row], at: usize) -> (u32, u32)
    requires { at < length rows.now }
    ensures { Some result ≡ option_map (λ row. (row.least, row.greatest)) (slice_get rows.now at) }
{
    let row = &rows[at];
    (row.least, row.greatest)
}

/// Takes out the row at a place, and puts this one last. Takes no memory.
fn put_last(rows: &mut Items<Row>, at: usize, row: Row)
    requires { at < length rows.old }
    ensures { rows.new ≡ remove rows.old at ++ row ∷ [] }
{
    let last = rows.len() - 1;
    for next in at..last {
        let moved = rows.as_slice()[next + 1];
        rows.set(next, moved);
    }
    rows.set(last, row);
}

/// The bounds of the values that meet the requests of these rows.
fn bounds_of(rows: &[Row]) -> (u32, u32)
    ensures { result ≡ fold narrowed any rows.now }
{
    rows.iter().fold(ANY, |bounds, row| narrowed(bounds, row))
}

/// The bounds of the values that meet the requests of these rows but that of the worker's handle.
fn bounds_but(rows: &[Row], worker: u16, handle: &Handle) -> (u32, u32)
    ensures { result ≡ fold narrowed any (filter (λ row. not (is_row_of worker handle.now.bytes row)) rows.now) }
{
    rows.iter()
        .filter(|row| !is_row_of(row, worker, handle))
        .fold(ANY, |bounds, row| narrowed(bounds, row))
}

/// The bounds of the values that also meet a row's request.
fn narrowed(bounds: (u32, u32), row: &Row) -> (u32, u32)
    ensures { result ≡ narrowed bounds row.now }
{
    (bounds.0.max(row.least), bounds.1.min(row.greatest))
}
