//! What the handles of two workers ask of a rail, worked out by hand.
use crate::handle_rows::handle;
use crate::same::assert_same;
use request_set::RequestSet;
use std::alloc::AllocError;
use std::process::Abort;

/// Worker, name, and the least and the greatest value asked for, in µV.
const ASKED: [(u16, &str, u32, u32); 3] = [
    (1, "a", 800000, 1000000),
    (2, "a", 850000, 1100000),
    (1, "b", 700000, 950000),
];

/// What the first so many of these have in common.
const BOUNDS: [(u32, u32); 4] = [
    (0, 4294967295),
    (800000, 1000000),
    (850000, 1000000),
    (850000, 950000),
];

/// A worker and a name, and two values in µV.
type Bounds = (u16, &'static str, (u32, u32));

/// What the others of the three have in common.
const WITHOUT: &[Bounds] = &[
    (1, "a", (850000, 950000)),
    (2, "a", (800000, 950000)),
    (1, "b", (850000, 1000000)),
    (2, "b", (850000, 950000)),
    (3, "a", (850000, 950000)),
];

fn assert_without(rt: &impl Abort, set: &RequestSet, row: &Bounds) {
    let found = set.bounds_without(row.0, &handle(rt, row.1));
    assert_same(rt, "without", (row.0, row.1, found), *row);
}

fn assert_request(
    rt: &impl Abort,
    set: &RequestSet,
    worker: u16,
    name: &str,
    request: Option<(u32, u32)>,
) {
    let found = set.request_of(worker, &handle(rt, name));
    assert_same(
        rt,
        "request",
        (worker, name, found),
        (worker, name, request),
    );
}

/// The first so many requests are kept, and no others.
fn assert_asked(rt: &impl Abort, set: &RequestSet, count: usize) {
    assert!(rt; count < BOUNDS.len());
    assert_same(rt, "bounds", set.bounds(), BOUNDS[count]);
    for (at, (worker, name, lo, hi)) in ASKED.iter().enumerate() {
        let expected = if at < count { Some((*lo, *hi)) } else { None };
        assert_request(rt, set, *worker, name, expected);
    }
}

/// Asks what stands at this place. A try that is refused leaves all as it was.
fn ask(rt: &impl Abort, set: &mut RequestSet, at: usize) -> Result<(), AllocError> {
    assert!(rt; at < ASKED.len());
    let (worker, name, lo, hi) = ASKED[at];
    let name = handle(rt, name);
    if set.set(worker, &name, lo, hi).is_err() {
        assert_asked(rt, set, at);
        set.set(worker, &name, lo, hi)?;
    }
    assert_asked(rt, set, at + 1);
    Ok(())
}

#[test]
fn requests_of_three_handles(rt: HostRuntime) -> Result<(), AllocError> {
    let mut set = RequestSet::new(rt.alloc());
    assert_asked(&rt, &set, 0);
    for at in 0..3 {
        ask(&rt, &mut set, at)?;
    }
    for row in WITHOUT {
        assert_without(&rt, &set, row);
    }
    set.set(1, &handle(&rt, "a"), 960000, 970000)?;
    assert_request(&rt, &set, 1, "a", Some((960000, 970000)));
    assert_same(&rt, "no value", set.bounds(), (960000, 950000));
    assert_withdrawn(&rt, &mut set);
    Ok(())
}

/// Withdraws a request of the three, and one that isn't there.
fn assert_withdrawn(rt: &impl Abort, set: &mut RequestSet) {
    set.withdraw(1, &handle(rt, "b"));
    set.withdraw(2, &handle(rt, "b"));
    assert_same(rt, "bounds", set.bounds(), (960000, 970000));
    assert_request(rt, set, 1, "b", None);
    assert_request(rt, set, 2, "a", Some((850000, 1100000)));
    assert_without(rt, set, &(1, "a", (850000, 1100000)));
}
