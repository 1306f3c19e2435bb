ghost use Rattle.std.specs.Prelude.{◌≡◌, ℕ, ◌+◌, ◌<◌, ◌^◌, [], ◌∷◌, ◌++◌, All, None, Some, List, false, IsOk, IsSome, filter, filter_map, length, not, position, remove, slice_get, slice_set, IfSome, IfOk, OnOk, OnErr};
ghost use Rattle.board.specs.Rail.{is_within};
ghost use Rattle.use_counts.specs.Counts.{uses_of};
ghost use Rattle.use_counts.specs.Uses.{is_row_of};
ghost use Rattle.rail_state.specs.Requests.{DifferInName, meets_rows, others_than};

use board::{Event, Handle};
use item_list::Items;
use request_set::RequestSet;
use std::alloc::{AllocError, Global};
use std::marker::Model;
use use_counts::{HandleRow, RailUse};

/// All that is kept of a rail beside its registers: its handles with their requests, its hold, the
/// votes of the rails that it supplies, its events, and whether the board is suspended. Contracts see
/// its book. No two handles are of one worker and name.
#[derive(Drop)]
pub struct RailState {
    uses: RailUse,
    requests: RequestSet,
    events: Items<Event>,
    suspended: bool,
}

impl Model for RailState {
    ghost use Rattle.use_counts.specs.Book.{Book};
    ghost use Rattle.rail_state.specs.Inside.{AreKept};

    ghost Value = { Book };

    ghost view = { λ s. record { rows = s.uses.rows; held = s.uses.held; votes = s.uses.votes; events = s.events; suspended = s.suspended } };

    ghost invariant = { λ s. AreKept s.uses.rows s.requests };
}

impl RailState {
    /// A state without handles.
    fn without_rows(
        alloc: Global,
        hold: bool,
        votes: u32,
        events: Items<Event>,
        suspended: bool,
    ) -> RailState
        ensures { result ≡ record { rows = []; held = hold; votes = votes; events = events; suspended = suspended } }
    {
        RailState {
            uses: RailUse::new(alloc, hold, votes),
            requests: RequestSet::new(alloc),
            events,
            suspended,
        }
    }

    /// The state with these handles, their requests, and these events.
    pub fn new(
        alloc: Global,
        rows: &[HandleRow],
        hold: bool,
        votes: u32,
        events: Items<Event>,
        suspended: bool,
    ) -> Result<RailState, AllocError>
        requires few { length rows.now < 2 ^ 32 }
        requires apart { DifferInName rows.now }
        ensures { IfOk result (λ state. state ≡ record { rows = rows.now; held = hold; votes = votes; events = events; suspended = suspended }) }
    {
        let mut state = RailState::without_rows(alloc, hold, votes, events, suspended);
        for row in rows {
            state.add(*row)?;
        }
        Ok(state)
    }

    /// The handles of the rail, in the order in which they were opened.
    pub fn rows(&self) -> &[HandleRow]
        ensures rows { result.now ≡ self.now.rows }
        ensures apart { DifferInName self.now.rows }
    {
        self.uses.rows()
    }

    /// Whether the rail is held on.
    pub fn hold(&self) -> bool
        ensures { result ≡ self.now.held }
    {
        self.uses.hold()
    }

    /// How many of the rails that it supplies are on.
    pub fn votes(&self) -> u32
        ensures { result ≡ self.now.votes }
    {
        self.uses.votes()
    }

    /// The use count: the enables of all handles, the hold and the votes.
    pub fn use_count(&self) -> u64
        ensures { result ≡ uses_of self.now.rows self.now.held self.now.votes }
    {
        self.uses.use_count()
    }

    /// What the rail did, the oldest first.
    pub fn events(&self) -> &[Event]
        ensures { result.now ≡ self.now.events }
    {
        self.events.as_slice()
    }

    /// Whether the board is suspended.
    pub fn is_suspended(&self) -> bool
        ensures { result ≡ self.now.suspended }
    {
        self.suspended
    }

    /// The place of the worker's handle of this name, where the rail has it.
    pub fn place_of(&self, worker: u16, handle: &Handle) -> Option<usize>
        ensures place { result ≡ position (is_row_of worker handle.now.bytes) self.now.rows }
        ensures inside { IfSome result (λ at. at < length self.now.rows) }
    {
        self.uses.place_of(worker, handle)
    }

    /// The least and the greatest value that meet the requests of all handles but the worker's of this
    /// name, in µV; where no value does, the first is above the second.
    pub fn bounds_without(&self, worker: u16, handle: &Handle) -> (u32, u32)
        ensures { (uv : ℕ) → uv < 2 ^ 32 → is_within (Some result) uv ≡ meets_rows (others_than worker handle.now.bytes self.now.rows) uv }
    {
        self.requests.bounds_without(worker, handle)
    }

    /// Puts a handle last. At `Err` nothing has changed.
    pub fn add(&mut self, row: HandleRow) -> Result<(), AllocError>
        requires room { length self.old.rows + 1 < 2 ^ 32 }
        requires new { All (λ other. is_row_of other.worker other.handle.bytes row ≡ false) self.old.rows }
        ensures ok { OnOk result (self.new ≡ record self.old { rows = self.old.rows ++ row ∷ [] }) }
        ensures err { OnErr result (self.new ≡ self.old) }
    {
        self.uses.add(row)?;
        let Some((lo, hi)) = row.request else {
            return Ok(());
        };
        match self.requests.set(row.worker, &row.handle, lo, hi) {
            Ok(()) => Ok(()),
            Err(refused) => {
                let last = self.uses.rows().len() - 1;
                self.uses.remove(last);
                Err(refused)
            }
        }
    }

    /// Takes out the handle at `at`, with its request; the others keep their order.
    pub fn remove(&mut self, at: usize) -> HandleRow
        requires { at < length self.old.rows }
        ensures row { slice_get self.old.rows at ≡ Some result }
        ensures rest { self.new ≡ record self.old { rows = remove self.old.rows at } }
    {
        let row = self.uses.remove(at);
        self.requests.withdraw(row.worker, &row.handle);
        row
    }

    /// The handle at `at` has so many enables from now on.
    pub fn set_enables(&mut self, at: usize, enables: u32)
        requires { at < length self.old.rows }
        ensures { (row : HandleRow) → slice_get self.old.rows at ≡ Some row → self.new ≡ record self.old { rows = slice_set self.old.rows at (record row { enables = enables }) } }
    {
        self.uses.set_enables(at, enables);
    }

    /// The handle at `at` asks for values within this range, in µV, from now on, or for none. At `Err`
    /// nothing has changed; a handle that asks already, or that is to ask for nothing, is never refused.
    pub fn set_request(&mut self, at: usize, request: Option<(u32, u32)>) -> Result<(), AllocError>
        requires { at < length self.old.rows }
        ensures ok { OnOk result ((row : HandleRow) → slice_get self.old.rows at ≡ Some row → self.new ≡ record self.old { rows = slice_set self.old.rows at (record row { request = request }) }) }
        ensures err { OnErr result (self.new ≡ self.old) }
        ensures withdrawn { request ≡ None → IsOk result }
        ensures replaced { (row : HandleRow) → slice_get self.old.rows at ≡ Some row → IsSome row.request → IsOk result }
    {
        let row = self.uses.rows()[at];
        match request {
            Some((lo, hi)) => self.requests.set(row.worker, &row.handle, lo, hi)?,
            None => self.requests.withdraw(row.worker, &row.handle),
        }
        self.uses.set_request(at, request);
        Ok(())
    }

    /// Whether the rail is held from now on.
    pub fn set_hold(&mut self, hold: bool)
        ensures { self.new ≡ record self.old { held = hold } }
    {
        self.uses.set_hold(hold);
    }

    /// How many of the rails that it supplies are on from now on.
    pub fn set_votes(&mut self, votes: u32)
        ensures { self.new ≡ record self.old { votes = votes } }
    {
        self.uses.set_votes(votes);
    }

    /// Puts an event last. At `Err` nothing has changed.
    pub fn tell(&mut self, event: Event) -> Result<(), AllocError>
        ensures ok { OnOk result (self.new ≡ record self.old { events = self.old.events ++ event ∷ [] }) }
        ensures err { OnErr result (self.new ≡ self.old) }
    {
        self.events.push(event)
    }

    /// Puts this event in the place of what was told last.
    pub fn retell(&mut self, event: Event)
        ensures { (events : List Event) (last : Event) → self.old.events ≡ events ++ last ∷ [] → self.new ≡ record self.old { events = events ++ event ∷ [] } }
    {
        let told = self.events.len();
        if told > 0 {
            self.events.set(told - 1, event);
        }
    }

    /// Takes back what was told last.
    pub fn untell(&mut self)
        ensures { (events : List Event) (last : Event) → self.old.events ≡ events ++ last ∷ [] → self.new ≡ record self.old { events = events } }
    {
        self.events.pop();
    }
}
