ghost use Rattle.std.specs.Prelude.{◌≡◌, ◌<◌, ◌≤◌, ◌+◌, ◌&&◌, ◌++◌, [], ℕ, Bool, All, AllPairs, List, IfOk, IfSome, OnOk, length, map, replicate, slice_index, if◌then◌else◌, vec_len};
ghost use Rattle.board_graph.specs.Sets.{rails_of};
ghost use Rattle.board.specs.Desc.{ArePlaced};
ghost use Rattle.board.specs.Rail.{is_on};
ghost use Rattle.board.specs.Valid.{IsValid};
ghost use Rattle.plain_board.specs.declared.plain.Plain.{Plain as PlainBoard};
ghost use Rattle.plain_board.specs.Counts.{is_supply};
ghost use Rattle.plain_board.specs.Handles.{count_own};
ghost use Rattle.plain_board.specs.Inv.{Inv, StandApart};
ghost use Rattle.plain_board.specs.Refusals.{most_handles};
ghost use Rattle.plain_board.specs.Untied.{HoldFields};
ghost use Rattle.rail_ops.specs.Sight.{Shows, shown_by};
ghost use Rattle.rail_ops.specs.Foreign.{foreign};
ghost use Rattle.rail_ops.specs.Inside.Alone.{AreBooks, AreVotes, blank, handles_in, with_rows};

use crate::opening::has_number;
use board::{Board, Event, Part, Rail, RailId};
use chip_regs::{Bits, Regs};
use item_list::Items;
use plain_board::Plain;
use rail_state::{RailState, Rails};
use std::alloc::{AllocError, Global};
use use_counts::HandleRow;

/// All rails of a board, where nobody else has any: their registers and their states, without locks.
#[derive(Drop)]
pub struct Alone<'b> {
    board: &'b Board,
    regs: Regs,
    states: Vec<RailState>,
}

impl Rails for Alone<'_> {
    ghost use Rattle.std.specs.Prelude.{ℕ, List, slice_index_or};
    ghost use Rattle.std.specs.Vec.{with_item};
    ghost use Rattle.std.proofs.Common.{refl};
    ghost use Rattle.board_graph.specs.Sets.{rails_of};
    ghost use Rattle.rail_ops.specs.Inside.AloneLaws.{fits_with_book, book_with_book};
    ghost use Rattle.rail_ops.specs.Foreign.{foreign};
    ghost use Rattle.rail_ops.specs.Inside.Alone.{no_book, number_at, Fits};

    ghost board = { λ s. s.board.now };

    ghost rails = { λ s. rails_of s.board.now.graph };

    ghost bits = { λ s i part. number_at s.board.now s.regs i part };

    ghost states = { λ s i. slice_index_or s.states.items i no_book };

    ghost with_state = { λ s r book. record s { states = with_item s.states r book } };

    ghost Base = { List (List ℕ) };

    ghost base = { λ s. foreign s.board.now s.regs };

    ghost fits = { λ s. Fits s.board.now s.regs s.states.items };

    fn has(&self, r: RailId) -> bool {
        usize::from(r.0) < self.states.len()
    }

    fn see(&mut self, r: RailId, part: Part) -> Bits {
        match self.board.field(r, part) {
            Some(field) => self.regs.get(&field),
            None => 0,
        }
    }

    fn write(&mut self, r: RailId, part: Part, number: Bits) {
        if let Some(field) = self.board.field(r, part) {
            self.regs.put(&field, number);
        }
    }

    fn state(&self, r: RailId) -> &RailState {
        &self.states[usize::from(r.0)]
    }

    fn state_mut(&mut self, r: RailId) -> &mut RailState {
        &mut self.states[usize::from(r.0)]
    }

    ghost with_state_fits = { λ s r book fits has. fits_with_book s.board.now s.regs s.states.items fits r book };

    ghost with_state_states = { λ s r i book fits has. book_with_book s.board.now s.regs s.states.items fits r book i has };

    ghost with_state_board = { λ s r book. refl };

    ghost with_state_rails = { λ s r book. refl };

    ghost with_state_bits = { λ s r i part book. refl };

    ghost with_state_base = { λ s r book. refl };
}

/// As many zeros as there are rails.
fn zeros(alloc: Global, count: usize) -> Result<Vec<u32>, AllocError>
    ensures { IfOk result (λ votes. votes.items ≡ replicate count 0) }
{
    let mut votes = Vec::with_capacity(alloc, count)?;
    for _rail in 0..count {
        votes.push(0)?;
    }
    Ok(votes)
}

/// Counts the vote of a rail for its supply.
fn count_vote(votes: &mut Vec<u32>, rail: &Rail, regs: &Regs)
    requires placed { ArePlaced (length regs.now) rail.now.desc }
    requires supply { IfSome rail.now.supply (λ s. s.0 < vec_len votes.old) }
    requires few { (i : ℕ) → slice_index votes.old.items i < 65536 }
    ensures rails { vec_len votes.new ≡ vec_len votes.old }
    ensures each { (i : ℕ) → i < vec_len votes.old → slice_index votes.new.items i ≡ slice_index votes.old.items i + (if is_supply i rail.now.supply && is_on rail.now regs.now then 1 else 0) }
{
    if let Some(supply) = rail.supply {
        if rail.is_on(regs) {
            votes[usize::from(supply.0)] += 1;
        }
    }
}

/// The votes of all rails, by one walk over the rails that vote.
fn votes(alloc: Global, board: &Board, regs: &Regs) -> Result<Vec<u32>, AllocError>
    requires valid { IsValid board.now }
    requires chips { length regs.now ≡ board.now.chips }
    ensures { IfOk result (λ votes. AreVotes (length board.now.rails) board.now.rails regs.now votes.items) }
{
    let mut votes = zeros(alloc, board.rails.len())?;
    for rail in board.rails.as_slice() {
        count_vote(&mut votes, rail, regs);
    }
    Ok(votes)
}

/// The states of the rails, as yet without handles.
fn without_handles(
    alloc: Global,
    holds: &[bool],
    votes: &[u32],
    events: Items<Items<Event>>,
    suspended: bool,
) -> Result<Vec<RailState>, AllocError>
    requires holds { length holds.now ≡ length events }
    requires votes { length votes.now ≡ length events }
    ensures { IfOk result (λ states. AreBooks (length events) (blank holds.now votes.now events suspended) states.items) }
{
    let mut states = Vec::new(alloc);
    for list in events.into_vec() {
        let i = states.len();
        states.push(RailState::new(alloc, &[], holds[i], votes[i], list, suspended)?)?;
    }
    Ok(states)
}

/// The states with these handles, each on its rail.
fn with_handles(
    mut states: Vec<RailState>,
    handles: &[(RailId, HandleRow)],
) -> Result<Vec<RailState>, AllocError>
    requires blank { All (λ book. book.rows ≡ []) states.items }
    requires rails { All (λ entry. entry.0.0 < vec_len states) handles.now }
    requires apart { AllPairs StandApart handles.now }
    requires few { (worker : ℕ) → count_own handles.now worker ≤ most_handles }
    ensures { IfOk result (λ made. AreBooks (vec_len states) (with_rows states.items handles.now) made.items) }
{
    for (on, row) in handles {
        has_number(row);
        states[usize::from(on.0)].add(*row)?;
    }
    Ok(states)
}

/// Puts the handles of a rail last.
fn put_handles(
    handles: &mut Items<(RailId, HandleRow)>,
    id: RailId,
    rows: &[HandleRow],
) -> Result<(), AllocError>
    ensures { OnOk result (handles.new ≡ handles.old ++ map (λ row. (id, row)) rows.now) }
{
    for row in rows {
        handles.push((id, *row))?;
    }
    Ok(())
}

/// All handles, rail by rail.
fn handles_of(alloc: Global, states: &[RailState]) -> Result<Items<(RailId, HandleRow)>, AllocError>
    requires few { length states.now < 65536 }
    ensures { IfOk result (λ handles. handles ≡ handles_in states.now) }
{
    let mut handles = Items::new(alloc);
    let mut id = 0;
    for state in states {
        put_handles(&mut handles, RailId(id), state.rows())?;
        id += 1;
    }
    Ok(handles)
}

/// The holds of all rails.
fn holds_of(alloc: Global, states: &[RailState]) -> Result<Items<bool>, AllocError>
    ensures { IfOk result (λ holds. holds ≡ map (λ book. book.held) states.now) }
{
    let mut holds = Items::new(alloc);
    for state in states {
        holds.push(state.hold())?;
    }
    Ok(holds)
}

/// The same events.
fn copy_of(alloc: Global, events: &[Event]) -> Result<Items<Event>, AllocError>
    ensures { IfOk result (λ copied. copied ≡ events.now) }
{
    let mut copied = Items::new(alloc);
    for event in events {
        copied.push(*event)?;
    }
    Ok(copied)
}

/// The events of all rails.
fn events_of(alloc: Global, states: &[RailState]) -> Result<Items<Items<Event>>, AllocError>
    ensures { IfOk result (λ events. events ≡ map (λ book. book.events) states.now) }
{
    let mut events = Items::new(alloc);
    for state in states {
        events.push(copy_of(alloc, state.events())?)?;
    }
    Ok(events)
}

impl<'b> Alone<'b> {
    /// All rails of a board, as a plain board of it has them. The votes of the rails are counted once
    /// over all rails, and the handles are walked once.
    pub fn new(alloc: Global, board: &'b Board, plain: Plain) -> Result<Alone<'b>, AllocError>
        requires valid { IsValid board.now }
        requires inv { Inv board.now plain }
        requires hold { HoldFields board.now plain.regs }
        ensures fits { IfOk result (λ s. ⟦<Alone<'b> as Rails>⟧.fits s) }
        ensures board { IfOk result (λ s. ⟦<Alone<'b> as Rails>⟧.board s ≡ board.now) }
        ensures rails { IfOk result (λ s. ⟦<Alone<'b> as Rails>⟧.rails s ≡ rails_of board.now.graph) }
        ensures shows { IfOk result (λ s. Shows (shown_by ⟦<Alone<'b> as Rails>⟧.board ⟦<Alone<'b> as Rails>⟧.rails ⟦<Alone<'b> as Rails>⟧.bits ⟦<Alone<'b> as Rails>⟧.states s) plain) }
        ensures base { IfOk result (λ s. ⟦<Alone<'b> as Rails>⟧.base s ≡ foreign board.now plain.regs) }
    {
        let Plain {
            regs,
            handles,
            holds,
            suspended,
            events,
        } = plain;
        let votes = votes(alloc, board, &regs)?;
        let blank = without_handles(alloc, holds.as_slice(), votes.as_slice(), events, suspended)?;
        let states = with_handles(blank, handles.as_slice())?;
        Ok(Alone {
            board,
            regs,
            states,
        })
    }

    /// The plain board that all rails show. There is but one with their base.
    pub fn into_plain(self, alloc: Global) -> Result<Plain, AllocError>
        requires fits { ⟦<Alone<'b> as Rails>⟧.fits self }
        ensures { IfOk result (λ made. (plain : PlainBoard) → Inv self.entry.board.now plain → HoldFields self.entry.board.now plain.regs
            → Shows (shown_by ⟦<Alone<'b> as Rails>⟧.board ⟦<Alone<'b> as Rails>⟧.rails ⟦<Alone<'b> as Rails>⟧.bits ⟦<Alone<'b> as Rails>⟧.states self.entry) plain
            → foreign self.entry.board.now plain.regs ≡ ⟦<Alone<'b> as Rails>⟧.base self.entry → made ≡ plain) }
    {
        let Alone {
            board: _,
            regs,
            states,
        } = self;
        let suspended = states[0].is_suspended();
        let handles = handles_of(alloc, states.as_slice())?;
        let holds = holds_of(alloc, states.as_slice())?;
        let events = events_of(alloc, states.as_slice())?;
        Ok(Plain {
            regs,
            handles,
            holds,
            suspended,
            events,
        })
    }
}
