ghost use Rattle.std.specs.Prelude.{◌≡◌, ℕ, ◌+◌, ◌<◌, ◌≤◌, [], ◌∷◌, ◌++◌, Some, length, position, remove, slice_get, slice_set, IfSome, OnOk, OnErr};
ghost use Rattle.use_counts.specs.Counts.{drawn, drawn_by, enables_of, uses_of};
ghost use Rattle.use_counts.specs.Uses.{is_row_of};

use crate::handle_row::HandleRow;
use board::Handle;
use item_list::Items;
use std::alloc::{AllocError, Global};
use std::marker::Model;

/// The open handles of a rail in the order in which they came, its hold, and the votes of the rails
/// that it supplies. What these come to is kept beside them, so no question walks the handles.
#[derive(Drop)]
pub struct RailUse {
    rows: Items<HandleRow>,
    held: bool,
    votes: u32,
    enables: u64,
    drawn: u64,
}

impl Model for RailUse {
    ghost use Rattle.use_counts.specs.Uses.{Uses};
    ghost use Rattle.use_counts.specs.Inside.Kept.{Kept};

    ghost Value = { Uses };

    ghost view = { λ u. record { rows = u.rows; held = u.held; votes = u.votes } };

    ghost invariant = { λ u. Kept u.rows u.enables u.drawn };
}

/// Whether the row is that of the worker's handle of this name.
fn is_row_of(worker: u16, handle: &Handle, row: &HandleRow) -> bool
    ensures { result ≡ is_row_of worker handle.now.bytes row.now }
{
    row.worker == worker && row.handle.as_str() == handle.as_str()
}

/// What a handle draws, in µA.
fn drawn(row: &HandleRow) -> u64
    ensures is { result ≡ drawn row.now }
    ensures few { result ≤ 4294967295 }
{
    if row.enables == 0 {
        0
    } else {
        u64::from(row.load)
    }
}

impl RailUse {
    /// No handles. Takes no memory.
    pub fn new(alloc: Global, hold: bool, votes: u32) -> RailUse
        ensures { result ≡ record { rows = []; held = hold; votes = votes } }
    {
        RailUse {
            rows: Items::new(alloc),
            held: hold,
            votes,
            enables: 0,
            drawn: 0,
        }
    }

    /// The handles, in the order in which they came.
    pub fn rows(&self) -> &[HandleRow]
        ensures { result.now ≡ self.now.rows }
    {
        self.rows.as_slice()
    }

    /// Whether the rail is held on since the start.
    pub fn hold(&self) -> bool
        ensures { result ≡ self.now.held }
    {
        self.held
    }

    /// How many of the rails that it supplies are on.
    pub fn votes(&self) -> u32
        ensures { result ≡ self.now.votes }
    {
        self.votes
    }

    /// The enables of all handles.
    pub fn enables(&self) -> u64
        ensures { result ≡ enables_of self.now.rows }
    {
        self.enables
    }

    /// What the rail carries, in µA: `system`, and what the handles draw that have it enabled.
    pub fn sum(&self, system: u32) -> u64
        ensures { result ≡ system + drawn_by self.now.rows }
    {
        u64::from(system) + self.drawn
    }

    /// The use count: the enables, the hold and the votes.
    pub fn use_count(&self) -> u64
        ensures { result ≡ uses_of self.now.rows self.now.held self.now.votes }
    {
        let votes = self.votes;
        self.enables + u64::from(self.held) + u64::from(votes)
    }

    /// The place of the worker's handle of this name, where the rail has it. Walks the handles.
    pub fn place_of(&self, worker: u16, handle: &Handle) -> Option<usize>
        ensures place { result ≡ position (is_row_of worker handle.now.bytes) self.now.rows }
        ensures inside { IfSome result (λ at. at < length self.now.rows) }
    {
        self.rows
            .as_slice()
            .iter()
            .position(|row| is_row_of(worker, handle, row))
    }

    /// Puts the handle last. At `Err` nothing has changed.
    pub fn add(&mut self, row: HandleRow) -> Result<(), AllocError>
        requires room { length self.old.rows < 4294967295 }
        ensures ok { OnOk result (self.new ≡ record self.old { rows = self.old.rows ++ row ∷ [] }) }
        ensures err { OnErr result (self.new ≡ self.old) }
    {
        self.rows.push(row)?;
        self.enables += u64::from(row.enables);
        self.drawn += drawn(&row);
        Ok(())
    }

    /// Takes out the handle at `at`; the others keep their order.
    pub fn remove(&mut self, at: usize) -> HandleRow
        requires { at < length self.old.rows }
        ensures row { slice_get self.old.rows at ≡ Some result }
        ensures rest { self.new ≡ record self.old { rows = remove self.old.rows at } }
    {
        let row = self.rows.remove(at);
        self.enables -= u64::from(row.enables);
        self.drawn -= drawn(&row);
        row
    }

    /// Puts a row in the place of the one at `at`.
    fn put(&mut self, at: usize, row: HandleRow)
        requires { at < length self.old.rows }
        ensures { self.new ≡ record self.old { rows = slice_set self.old.rows at row } }
    {
        let before = self.rows.as_slice()[at];
        self.enables = self.enables - u64::from(before.enables) + u64::from(row.enables);
        self.drawn = self.drawn - drawn(&before) + drawn(&row);
        self.rows.set(at, row);
    }

    /// The handle at `at` has so many enables from now on.
    pub fn set_enables(&mut self, at: usize, enables: u32)
        requires { at < length self.old.rows }
        ensures { (row : HandleRow) → slice_get self.old.rows at ≡ Some row → self.new ≡ record self.old { rows = slice_set self.old.rows at (record row { enables = enables }) } }
    {
        let mut row = self.rows.as_slice()[at];
        row.enables = enables;
        self.put(at, row);
    }

    /// The handle at `at` asks for values within this range, in µV, from now on, or for none.
    pub fn set_request(&mut self, at: usize, request: Option<(u32, u32)>)
        requires { at < length self.old.rows }
        ensures { (row : HandleRow) → slice_get self.old.rows at ≡ Some row → self.new ≡ record self.old { rows = slice_set self.old.rows at (record row { request = request }) } }
    {
        let mut row = self.rows.as_slice()[at];
        row.request = request;
        self.put(at, row);
    }

    /// The handle at `at` draws so much from now on, in µA, while it has the rail enabled.
    pub fn set_load(&mut self, at: usize, load: u32)
        requires { at < length self.old.rows }
        ensures { (row : HandleRow) → slice_get self.old.rows at ≡ Some row → self.new ≡ record self.old { rows = slice_set self.old.rows at (record row { load = load }) } }
    {
        let mut row = self.rows.as_slice()[at];
        row.load = load;
        self.put(at, row);
    }

    /// The handle at `at` has been told of so many events of its rail, or doesn't listen.
    pub fn set_cursor(&mut self, at: usize, cursor: Option<u32>)
        requires { at < length self.old.rows }
        ensures { (row : HandleRow) → slice_get self.old.rows at ≡ Some row → self.new ≡ record self.old { rows = slice_set self.old.rows at (record row { cursor = cursor }) } }
    {
        let mut row = self.rows.as_slice()[at];
        row.cursor = cursor;
        self.put(at, row);
    }

    /// Whether the rail is held from now on.
    pub fn set_hold(&mut self, hold: bool)
        ensures { self.new ≡ record self.old { held = hold } }
    {
        self.held = hold;
    }

    /// How many of the rails that it supplies are on from now on.
    pub fn set_votes(&mut self, votes: u32)
        ensures { self.new ≡ record self.old { votes = votes } }
    {
        self.votes = votes;
    }
}
