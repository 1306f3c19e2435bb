//! What the handles of a rail come to, worked out by hand.
ghost use Rattle.std.specs.Prelude.{◌≡◌, length};

use crate::handle_rows::{Listed, assert_row, assert_rows, handle, row_of};
use crate::same::assert_same;
use std::alloc::AllocError;
use std::process::Abort;
use use_counts::RailUse;

/// The handles as they come.
const ROWS: [Listed; 3] = [
    (1, "a", 2, Some((800000, 900000)), 1000, None, false),
    (2, "a", 0, None, 70000, Some(3), false),
    (1, "b", 65535, None, 4294967295, None, true),
];

/// The same once each has changed.
const CHANGED: [Listed; 3] = [
    (1, "a", 2, None, 0, Some(0), false),
    (2, "a", 1, Some((850000, 1100000)), 70000, None, false),
    (1, "b", 0, None, 4294967295, None, true),
];

/// The hold, the votes, the enables, what is drawn with 500 µA of the rail's own, and the use count.
type Counts = (bool, u32, u64, u64, u64);

/// The counts of a rail that is held and has two votes, with the first so many handles.
const COUNTS: [Counts; 4] = [
    (true, 2, 0, 500, 3),
    (true, 2, 2, 1500, 5),
    (true, 2, 2, 1500, 5),
    (true, 2, 65537, 4294968795, 65540),
];

fn assert_counts(rt: &impl Abort, uses: &RailUse, expected: Counts) {
    let found = (
        uses.hold(),
        uses.votes(),
        uses.enables(),
        uses.sum(500),
        uses.use_count(),
    );
    assert_same(rt, "counts", found, expected);
}

/// The rail has the first so many handles as they came.
fn assert_came(rt: &impl Abort, uses: &RailUse, count: usize) {
    assert!(rt; count < COUNTS.len());
    assert_rows(rt, uses.rows(), &ROWS[..count]);
    assert_counts(rt, uses, COUNTS[count]);
}

/// Adds the handle at this place. A try that is refused leaves all as it was.
fn add(rt: &impl Abort, uses: &mut RailUse, at: usize) -> Result<(), AllocError> {
    assert!(rt; uses.rows().len() == at);
    assert!(rt; at < ROWS.len());
    if uses.add(row_of(rt, &ROWS[at])).is_err() {
        assert_came(rt, uses, at);
        uses.add(row_of(rt, &ROWS[at]))?;
    }
    assert_came(rt, uses, at + 1);
    Ok(())
}

/// Worker, name, and the place of the handle among the three.
const PLACES: &[(u16, &str, Option<usize>)] = &[
    (1, "a", Some(0)),
    (2, "a", Some(1)),
    (1, "b", Some(2)),
    (2, "b", None),
    (3, "a", None),
    (1, "", None),
];

/// The same once the first is gone.
const PLACES_LEFT: &[(u16, &str, Option<usize>)] = &[
    (1, "a", None),
    (2, "a", Some(0)),
    (1, "b", Some(1)),
];

fn assert_place(rt: &impl Abort, uses: &RailUse, row: (u16, &str, Option<usize>)) {
    let found = uses.place_of(row.0, &handle(rt, row.1));
    assert_same(rt, "place", (row.0, row.1, found), row);
}

#[test]
fn a_rail_with_three_handles(rt: HostRuntime) -> Result<(), AllocError> {
    let mut uses = RailUse::new(rt.alloc(), true, 2);
    assert_came(&rt, &uses, 0);
    for at in 0..3 {
        add(&rt, &mut uses, at)?;
    }
    for place in PLACES {
        assert_place(&rt, &uses, *place);
    }
    assert_changed(&rt, &mut uses);
    assert_removed(&rt, &mut uses);
    let other = RailUse::new(rt.alloc(), false, 0);
    assert_counts(&rt, &other, (false, 0, 0, 500, 0));
    Ok(())
}

/// Changes the handle at this place to what it is in the end.
fn change(rt: &impl Abort, uses: &mut RailUse, at: usize) {
    assert!(rt; at < CHANGED.len());
    let (_, _, enables, request, load, cursor, _) = CHANGED[at];
    assert!(rt; at < uses.rows().len());
    uses.set_enables(at, enables);
    assert!(rt; at < uses.rows().len());
    uses.set_request(at, request);
    assert!(rt; at < uses.rows().len());
    uses.set_load(at, load);
    assert!(rt; at < uses.rows().len());
    uses.set_cursor(at, cursor);
}

/// Changes each of the three handles, and what else is counted.
fn assert_changed(rt: &impl Abort, uses: &mut RailUse) {
    change(rt, uses, 0);
    change(rt, uses, 1);
    uses.set_hold(false);
    uses.set_votes(4294967295);
    let drawn = 4295037795;
    assert_counts(rt, uses, (false, 4294967295, 65538, drawn, 4295032833));
    change(rt, uses, 2);
    assert_counts(rt, uses, (false, 4294967295, 3, 70500, 4294967298));
    assert_rows(rt, uses.rows(), &CHANGED);
}

/// Takes out the first of the three handles.
fn assert_removed(rt: &impl Abort, uses: &mut RailUse) {
    assert!(rt; uses.rows().len() == 3);
    let row = uses.remove(0);
    assert_row(rt, &row, &CHANGED[0]);
    assert_rows(rt, uses.rows(), &CHANGED[1..]);
    assert_counts(rt, uses, (false, 4294967295, 1, 70500, 4294967296));
    for place in PLACES_LEFT {
        assert_place(rt, uses, *place);
    }
}
