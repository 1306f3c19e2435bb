//! Lines of workers' scripts, read by hand.
ghost use Rattle.board.specs.Valid.{IsValid};

use crate::same::assert_same;
use crate::seen::{Seen, seen};
use crate::small_board::{built_in_board, small_board};
use board::{Board, Name, RailId};
use indexmap::IndexMap;
use script::{LineFault, names_of, read_call};
use std::alloc::Global;
use std::process::Abort;

/// The names of the rails, in order.
const NAMES: [&str; 4] = [
    "core",
    "->",
    "abcdefghijklmnopqrstuvwxyz0123456789ABCDEFGHIJKLMNOPQRSTUVWXYZ-.",
    "vbat",
];

/// What a line is that spells no call.
const BAD: Seen<'static> = ("bad line", "", 0, 0);

/// What a line is that opens a handle on no rail.
const NO_RAIL: Seen<'static> = ("no rail", "", 0, 0);

/// Each line with its call, or what is wrong with it.
const LINES: &[(&str, Seen<'static>)] = &[
    ("open a core", ("open", "a", 0, 0)),
    ("openx a core", ("openx", "a", 0, 0)),
    ("open a ->", ("open", "a", 1, 0)),
    (
        "open a abcdefghijklmnopqrstuvwxyz0123456789ABCDEFGHIJKLMNOPQRSTUVWXYZ-.",
        ("open", "a", 2, 0),
    ),
    (
        "open a abcdefghijklmnopqrstuvwxyz0123456789ABCDEFGHIJKLMNOPQRSTUVWXYZ-.0",
        NO_RAIL,
    ),
    ("openx b_2 vbat", ("openx", "b_2", 3, 0)),
    ("openx b_2 vbat2", NO_RAIL),
    ("open a cor", NO_RAIL),
    ("open a Core", NO_RAIL),
    ("open a core\t", NO_RAIL),
    ("open a \u{e9}", NO_RAIL),
    ("open a core ", BAD),
    ("open a ", BAD),
    ("open a", BAD),
    ("open  core", BAD),
    ("open  a core", BAD),
    (" open a core", BAD),
    ("Open a core", BAD),
    ("opens a core", BAD),
    ("opena core", BAD),
    (
        "open abcdefghij_12345 core",
        ("open", "abcdefghij_12345", 0, 0),
    ),
    ("open abcdefghij_123456 core", BAD),
    ("open abcdefghij_123456 vdd", BAD),
    ("open A core", BAD),
    ("open 1a core", BAD),
    ("open _a core", BAD),
    ("open a- core", BAD),
    ("close a", ("close", "a", 0, 0)),
    ("enable a", ("enable", "a", 0, 0)),
    ("disable a", ("disable", "a", 0, 0)),
    ("get a", ("get", "a", 0, 0)),
    ("ison a", ("ison", "a", 0, 0)),
    ("mode z", ("mode", "z", 0, 0)),
    ("listen a", ("listen", "a", 0, 0)),
    ("events a", ("events", "a", 0, 0)),
    ("get suspend", ("get", "suspend", 0, 0)),
    ("get abcdefghij_12345", ("get", "abcdefghij_12345", 0, 0)),
    ("get abcdefghij_123456", BAD),
    ("get", BAD),
    ("get ", BAD),
    ("get a ", BAD),
    ("get a b", BAD),
    ("get a\r", BAD),
    ("get \u{e9}", BAD),
    ("gets a", BAD),
    ("set a 0 4294967295", ("set", "a", 0, 4294967295)),
    ("set a 4294967295 0", ("set", "a", 4294967295, 0)),
    ("set a 0 4294967296", BAD),
    ("set a 4294967296 0", BAD),
    ("set a 00 1", BAD),
    ("set a 1 01", BAD),
    ("set a +1 2", BAD),
    ("set a -1 2", BAD),
    ("set a 1 0x2", BAD),
    ("set a 1", BAD),
    ("set a 1 ", BAD),
    ("set a 1 2 ", BAD),
    ("set a 1  2", BAD),
    ("set a 1 2 3", BAD),
    ("supported b 10 9", ("supported", "b", 10, 9)),
    ("supported b 10", BAD),
    ("load a 4294967295", ("load", "a", 4294967295, 0)),
    ("load a 4294967296", BAD),
    ("load a 00", BAD),
    ("load a 0", ("load", "a", 0, 0)),
    ("load a", BAD),
    ("load a 1 2", BAD),
    ("list a 127", ("list", "a", 127, 0)),
    ("list a 127 ", BAD),
    ("list a x", BAD),
    ("suspend standby", ("suspend", "standby", 0, 0)),
    ("suspend mem", ("suspend", "mem", 0, 0)),
    ("suspend disk", ("suspend", "disk", 0, 0)),
    ("suspend ram", BAD),
    ("suspend", BAD),
    ("suspend mem ", BAD),
    ("resume", ("resume", "", 0, 0)),
    ("resume ", BAD),
    ("resume a", BAD),
    ("release-boot", ("release-boot", "", 0, 0)),
    ("release_boot", BAD),
    ("", BAD),
    (" ", BAD),
];

fn assert_line(
    rt: &impl Abort,
    names: &IndexMap<Name, RailId>,
    line: &str,
    expected: Seen<'static>,
) {
    match read_call(line.as_bytes(), names) {
        Ok(call) => {
            assert_same(rt, line, seen(&call), expected);
            assert_same(rt, line, seen(&call.copy()), expected);
        }
        Err(LineFault::BadLine) => assert_same(rt, line, BAD, expected),
        Err(LineFault::NoRail) => assert_same(rt, line, NO_RAIL, expected),
    }
}

fn assert_name(rt: &impl Abort, names: &IndexMap<Name, RailId>, at: usize, word: &str) {
    let name = Name::from(word).expect(rt, "a name of at most 64 bytes");
    let found = names.get(&name).map(|rail| usize::from(rail.0));
    assert_same(rt, word, found, Some(at));
}

/// The names of a board's rails, made once more where an allocation was refused.
fn names_on(rt: &impl Abort, alloc: Global, board: &Board) -> IndexMap<Name, RailId>
    requires { IsValid board.now }
{
    match names_of(alloc, board) {
        Ok(names) => names,
        Err(_) => names_of(alloc, board).expect(rt, "the names"),
    }
}

#[test]
fn lines_of_scripts(rt: HostRuntime) {
    let board = small_board(&rt, rt.alloc());
    let names = names_on(&rt, rt.alloc(), &board);
    assert_same(&rt, "how many", names.len(), NAMES.len());
    for (at, word) in NAMES.iter().enumerate() {
        assert_name(&rt, &names, at, word);
    }
    for (line, expected) in LINES {
        assert_line(&rt, &names, line, *expected);
    }
    let bytes = read_call(b"get \xff", &names);
    assert!(rt; matches!(bytes, Err(LineFault::BadLine)));
}

#[test]
fn names_of_the_built_in_board(rt: HostRuntime) {
    let board = built_in_board(&rt, rt.alloc());
    let names = names_on(&rt, rt.alloc(), &board);
    assert_same(&rt, "how many", names.len(), 1);
    assert_name(&rt, &names, 0, "core");
    assert_line(&rt, &names, "open a core", ("open", "a", 0, 0));
    assert_line(&rt, &names, "open a vbat", NO_RAIL);
}
