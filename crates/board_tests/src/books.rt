//! The book of a rail, worked out by hand.
ghost use Rattle.std.specs.Prelude.{◌≡◌, ◌↔◌, All, IsTrue, false, length};
ghost use Rattle.use_counts.specs.declared.handle_row.HandleRow.{HandleRow as TheRow};
ghost use Rattle.use_counts.specs.Uses.{is_row_of};

use crate::handle_rows::{Listed, assert_row, assert_rows, handle, row_of};
use crate::same::assert_same;
use board::Event;
use item_list::Items;
use rail_state::RailState;
use std::alloc::{AllocError, Global};
use std::process::Abort;
use use_counts::HandleRow;

/// The handles that the rail has at first, and the one that comes.
const ROWS: [Listed; 3] = [
    (1, "a", 2, Some((800000, 1000000)), 1000, None, false),
    (2, "a", 0, None, 70000, Some(1), false),
    (1, "b", 65535, Some((700000, 950000)), 5, None, true),
];

/// The same once each has changed.
const CHANGED: [Listed; 3] = [
    (1, "a", 2, Some((960000, 970000)), 1000, None, false),
    (2, "a", 1, Some((850000, 1100000)), 70000, Some(1), false),
    (1, "b", 65535, None, 5, None, true),
];

/// An event in a word, with the values that it tells.
type Told = (&'static str, u32, u32);

const EVENTS: [Told; 3] = [
    ("voltage change", 850000, 0),
    ("enable", 0, 0),
    ("pre voltage change", 850000, 962500),
];

fn told(event: &Event) -> Told {
    match *event {
        Event::PreVoltageChange { old, new } => ("pre voltage change", old, new),
        Event::VoltageChange { uv } => ("voltage change", uv, 0),
        Event::AbortVoltageChange { uv } => ("abort voltage change", uv, 0),
        Event::Enable => ("enable", 0, 0),
        Event::PreDisable => ("pre disable", 0, 0),
        Event::Disable => ("disable", 0, 0),
        Event::AbortDisable => ("abort disable", 0, 0),
    }
}

fn assert_events(rt: &impl Abort, state: &RailState, expected: &[Told]) {
    assert_same(rt, "how many", state.events().len(), expected.len());
    for (event, listed) in state.events().iter().zip(expected) {
        assert_same(rt, "event", told(event), *listed);
    }
}

/// Hold, votes, use count, whether the board is suspended.
type Kept = (bool, u32, u64, bool);

fn kept(state: &RailState) -> Kept {
    (
        state.hold(),
        state.votes(),
        state.use_count(),
        state.is_suspended(),
    )
}

fn assert_kept(rt: &impl Abort, state: &RailState, expected: Kept) {
    assert_same(rt, "kept", kept(state), expected);
}

/// What all but the worker's handle of this name ask, in µV.
fn assert_without(rt: &impl Abort, state: &RailState, row: (u16, &str, (u32, u32))) {
    let found = state.bounds_without(row.0, &handle(rt, row.1));
    assert_same(rt, "without", (row.0, row.1, found), row);
}

fn assert_place(rt: &impl Abort, state: &RailState, row: (u16, &str, Option<usize>)) {
    let found = state.place_of(row.0, &handle(rt, row.1));
    assert_same(rt, "place", (row.0, row.1, found), row);
}

/// Whether the two handles are of one worker and name.
fn is_row_of(other: &HandleRow, row: &HandleRow) -> bool
    ensures { result ≡ is_row_of other.now.worker other.now.handle.bytes row.now }
{
    row.worker == other.worker && row.handle.as_str() == other.handle.as_str()
}

/// Whether none of the handles has the name of this one.
fn is_new(rows: &[HandleRow], row: &HandleRow) -> bool
    ensures { IsTrue result ↔ All (λ other. is_row_of other.worker other.handle.bytes row.now ≡ false) rows.now }
{
    rows.iter().all(|other| !is_row_of(other, row))
}

/// A rail that is held and has two votes, with the first two handles.
fn two_handles(rt: &impl Abort, alloc: Global) -> Result<RailState, AllocError> {
    let mut events = Items::new(alloc);
    events.push(Event::VoltageChange { uv: 850000 })?;
    events.push(Event::Enable)?;
    let first = row_of(rt, &ROWS[0]);
    let second = row_of(rt, &ROWS[1]);
    assert!(rt; first.worker != second.worker);
    RailState::new(alloc, &[first, second], true, 2, events, false)
}

/// What the others of the three ask.
const WITHOUT: &[(u16, &str, (u32, u32))] = &[
    (1, "a", (700000, 950000)),
    (2, "a", (800000, 950000)),
    (1, "b", (800000, 1000000)),
    (3, "a", (800000, 950000)),
];

/// Worker, name, and the place of the handle among the three.
const PLACES: &[(u16, &str, Option<usize>)] = &[
    (1, "a", Some(0)),
    (2, "a", Some(1)),
    (1, "b", Some(2)),
    (2, "b", None),
];

#[test]
fn a_rail_with_its_book(rt: HostRuntime) -> Result<(), AllocError> {
    let mut state = match two_handles(&rt, rt.alloc()) {
        Ok(state) => state,
        Err(_) => two_handles(&rt, rt.alloc())?,
    };
    assert_rows(&rt, state.rows(), &ROWS[..2]);
    assert_kept(&rt, &state, (true, 2, 5, false));
    assert_events(&rt, &state, &EVENTS[..2]);
    add(&rt, &mut state, 2, &ROWS[..2])?;
    assert_rows(&rt, state.rows(), &ROWS);
    assert_kept(&rt, &state, (true, 2, 65540, false));
    for row in WITHOUT {
        assert_without(&rt, &state, *row);
    }
    for row in PLACES {
        assert_place(&rt, &state, *row);
    }
    assert_changed(&rt, &mut state)?;
    assert_removed(&rt, &mut state);
    Ok(())
}

/// Adds the handle at this place behind those before it. A try that is refused leaves all as it was.
fn add(
    rt: &impl Abort,
    state: &mut RailState,
    at: usize,
    before: &[Listed],
) -> Result<(), AllocError> {
    assert!(rt; at < ROWS.len());
    let row = row_of(rt, &ROWS[at]);
    assert!(rt; state.rows().len() < 3);
    assert!(rt; is_new(state.rows(), &row));
    let (was, asked) = (kept(state), state.bounds_without(3, &row.handle));
    if state.add(row).is_err() {
        assert_rows(rt, state.rows(), before);
        assert_kept(rt, state, was);
        assert_without(rt, state, (3, ROWS[at].1, asked));
        state.add(row)?;
    }
    Ok(())
}

fn ask(
    rt: &impl Abort,
    state: &mut RailState,
    at: usize,
    request: Option<(u32, u32)>,
) -> Result<(), AllocError> {
    assert!(rt; at < state.rows().len());
    state.set_request(at, request)
}

/// Changes each of the three handles, and what else is counted.
fn assert_changed(rt: &impl Abort, state: &mut RailState) -> Result<(), AllocError> {
    assert!(rt; state.rows().len() == 3);
    state.set_enables(1, 1);
    ask(rt, state, 0, Some((960000, 970000)))?;
    ask(rt, state, 1, Some((850000, 1100000)))?;
    assert_without(rt, state, (3, "a", (960000, 950000)));
    ask(rt, state, 2, None)?;
    assert_without(rt, state, (3, "a", (960000, 970000)));
    assert_rows(rt, state.rows(), &CHANGED);
    state.set_hold(false);
    state.set_votes(4294967295);
    assert_kept(rt, state, (false, 4294967295, 4295032833, false));
    Ok(())
}

/// Takes out the first of the three handles.
fn assert_removed(rt: &impl Abort, state: &mut RailState) {
    assert!(rt; state.rows().len() == 3);
    let row = state.remove(0);
    assert_row(rt, &row, &CHANGED[0]);
    assert_rows(rt, state.rows(), &CHANGED[1..]);
    assert_without(rt, state, (3, "a", (850000, 1100000)));
    assert_place(rt, state, (1, "a", None));
    assert_place(rt, state, (1, "b", Some(1)));
}

#[test]
fn first_of_each_on_two_rails(rt: HostRuntime) -> Result<(), AllocError> {
    let mut one = RailState::new(rt.alloc(), &[], false, 0, Items::new(rt.alloc()), true)?;
    assert_kept(&rt, &one, (false, 0, 0, true));
    add(&rt, &mut one, 2, &[])?;
    assert_rows(&rt, one.rows(), &ROWS[2..]);
    assert_without(&rt, &one, (3, "a", (700000, 950000)));
    let mut other = RailState::new(rt.alloc(), &[], true, 1, Items::new(rt.alloc()), false)?;
    add(&rt, &mut other, 1, &[])?;
    assert_asked(&rt, &mut other)?;
    assert_told(&rt, &mut other)?;
    assert_kept(&rt, &one, (false, 0, 65535, true));
    assert_kept(&rt, &other, (true, 1, 2, false));
    Ok(())
}

/// The first request of a rail. A try that is refused leaves the handle without one.
fn assert_asked(rt: &impl Abort, state: &mut RailState) -> Result<(), AllocError> {
    assert!(rt; state.rows().len() == 1);
    let request = Some((850000, 1100000));
    if state.set_request(0, request).is_err() {
        assert_rows(rt, state.rows(), &ROWS[1..2]);
        assert_without(rt, state, (3, "a", (0, 4294967295)));
        state.set_request(0, request)?;
    }
    assert_without(rt, state, (3, "a", (850000, 1100000)));
    assert_without(rt, state, (2, "a", (0, 4294967295)));
    Ok(())
}

/// The first event of a rail. A try that is refused leaves it without one.
fn assert_told(rt: &impl Abort, state: &mut RailState) -> Result<(), AllocError> {
    let event = Event::PreVoltageChange {
        old: 850000,
        new: 962500,
    };
    if state.tell(event).is_err() {
        assert_events(rt, state, &[]);
        state.tell(event)?;
    }
    assert_events(rt, state, &EVENTS[2..]);
    Ok(())
}
