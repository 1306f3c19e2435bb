//! The names that workers have open.
use crate::handle_rows::handle;
use crate::same::assert_same;
use board::RailId;
use std::alloc::AllocError;
use std::process::Abort;
use use_counts::Mine;

/// The names that a worker opens, each with its rail.
const NAMES: [(&str, u16); 3] = [("a", 3), ("abcdefghij_12345", 0), ("b", 65535)];

/// A name and its rail, where it is open.
fn assert_name(rt: &impl Abort, mine: &Mine, name: &str, rail: Option<u16>) {
    let found = mine.rail_of(&handle(rt, name)).map(|r| r.0);
    assert_same(rt, name, found, rail);
}

/// The first so many names are open, and no others.
fn assert_open(rt: &impl Abort, mine: &Mine, count: usize) {
    assert_same(rt, "how many", mine.len(), count);
    for (at, (name, rail)) in NAMES.iter().enumerate() {
        let expected = if at < count { Some(*rail) } else { None };
        assert_name(rt, mine, name, expected);
    }
}

/// Opens the name at this place. A try that is refused leaves all as it was.
fn add(rt: &impl Abort, mine: &mut Mine, at: usize) -> Result<(), AllocError> {
    assert!(rt; at < NAMES.len());
    let (name, rail) = NAMES[at];
    let name = handle(rt, name);
    assert!(rt; mine.rail_of(&name).is_none());
    if mine.add(name, RailId(rail)).is_err() {
        assert_open(rt, mine, at);
        mine.add(name, RailId(rail))?;
    }
    assert_open(rt, mine, at + 1);
    Ok(())
}

#[test]
fn names_of_two_workers(rt: HostRuntime) -> Result<(), AllocError> {
    let mut mine = Mine::new(rt.alloc());
    assert_open(&rt, &mine, 0);
    let mut theirs = Mine::new(rt.alloc());
    add(&rt, &mut theirs, 0)?;
    for at in 0..3 {
        add(&rt, &mut mine, at)?;
    }
    assert_removed(&rt, &mut mine);
    assert_open(&rt, &theirs, 1);
    Ok(())
}

/// Closes the first of the three names, and one that isn't open.
fn assert_removed(rt: &impl Abort, mine: &mut Mine) {
    mine.remove(&handle(rt, "c"));
    assert_open(rt, mine, 3);
    mine.remove(&handle(rt, "a"));
    assert_same(rt, "how many", mine.len(), 2);
    assert_name(rt, mine, "a", None);
    assert_name(rt, mine, "abcdefghij_12345", Some(0));
    assert_name(rt, mine, "b", Some(65535));
    assert_name(rt, mine, "c", None);
}
