//! Rows that are read back from their lines, by hand.
ghost use Rattle.board.specs.Valid.{IsValid};

use crate::same::assert_same;
use crate::seen::{Seen, seen};
use crate::small_board::{built_in_board, small_board};
use board::{Board, Event};
use load_modes::Mode;
use rows::{Answer, Row, RowFault, read_row};
use std::alloc::{AllocError, Global};
use std::process::Abort;

/// An answer by its name, and what it tells.
type Told = (&'static str, u64, u64);

/// The chip, the register, the mask and the bits of a write.
type Update = (u8, u8, u8, u8);

/// The worker, the number of the line, the call, the answer and the writes.
type Listed = (u16, u32, Seen<'static>, Told, &'static [Update]);

fn mode_told(mode: Mode) -> Told {
    match mode {
        Mode::Fast => ("mode fast", 0, 0),
        Mode::Normal => ("mode normal", 0, 0),
        Mode::Idle => ("mode idle", 0, 0),
        Mode::Standby => ("mode standby", 0, 0),
    }
}

fn told(answer: &Answer) -> Told {
    match answer {
        Answer::Ok => ("done", 0, 0),
        Answer::OkTime { delay } => ("time", *delay, 0),
        Answer::OkSet { uv, delay } => ("set", u64::from(*uv), *delay),
        Answer::OkMode { mode } => mode_told(*mode),
        Answer::OkUv { uv } => ("uv", u64::from(*uv), 0),
        Answer::OkOn { on } => ("on", u64::from(*on), 0),
        Answer::OkList { uv: Some(uv) } => ("listed", u64::from(*uv), 0),
        Answer::OkList { uv: None } => ("not listed", 0, 0),
        Answer::OkYes { yes } => ("yes", u64::from(*yes), 0),
        Answer::OkEvents { list } => ("events", list.len() as u64, 0),
        Answer::BadRange { lo, hi } => ("bad range", u64::from(*lo), u64::from(*hi)),
        Answer::NoValue => ("no value", 0, 0),
        Answer::Unbalanced { enables } => ("unbalanced", u64::from(*enables), 0),
        Answer::CountFull { enables } => ("count full", u64::from(*enables), 0),
        Answer::StillEnabled { enables } => ("still enabled", u64::from(*enables), 0),
        Answer::Taken { handles } => ("taken", u64::from(*handles), 0),
        Answer::HandleOpen => ("handle open", 0, 0),
        Answer::HandlesFull { handles } => ("handles full", u64::from(*handles), 0),
        Answer::NoHandle => ("no handle", 0, 0),
        Answer::NotAllowed => ("not allowed", 0, 0),
        Answer::NoMode { sum } => ("no mode", *sum, 0),
        Answer::NotListening => ("not listening", 0, 0),
        Answer::Suspended => ("suspended", 0, 0),
        Answer::NotSuspended => ("not suspended", 0, 0),
        Answer::Fault { applied, now, .. } => ("fault", u64::from(*applied), now.len() as u64),
    }
}

/// The row of these lines, which are read once more where there was no memory.
fn read(alloc: Global, board: &Board, lines: &[u8]) -> Result<Row, RowFault>
    requires { IsValid board.now }
{
    match read_row(alloc, board, lines) {
        Err(RowFault::Memory) => read_row(alloc, board, lines),
        done => done,
    }
}

/// The row of these lines, which are those of one.
fn row_of(rt: &impl Abort, alloc: Global, board: &Board, lines: &str) -> Row
    requires { IsValid board.now }
{
    read(alloc, board, lines.as_bytes()).ok().expect(rt, lines)
}

/// Rows with their numbers and writes.
const ROWS: &[(&str, Listed)] = &[
    (
        "0 0 resume -> ok\n",
        (0, 0, ("resume", "", 0, 0), ("done", 0, 0), &[]),
    ),
    (
        "65535 4294967295 get a -> ok 5\n",
        (65535, 4294967295, ("get", "a", 0, 0), ("uv", 5, 0), &[]),
    ),
    (
        "1 2 enable a -> ok 100\n+ 0 0x20 0x01 0xff\n+ 1 0x9a 0x00 0x0c\n",
        (
            1,
            2,
            ("enable", "a", 0, 0),
            ("time", 100, 0),
            &[(0, 0x20, 0x01, 0xff), (1, 0x9a, 0x00, 0x0c)],
        ),
    ),
];

/// Rows of line 9 of worker 1, each with its call and its answer.
const ANSWERS: &[(&str, Seen<'static>, Told)] = &[
    (
        "1 9 open a core -> ok\n",
        ("open", "a", 0, 0),
        ("done", 0, 0),
    ),
    ("1 9 open a -> -> ok\n", ("open", "a", 1, 0), ("done", 0, 0)),
    (
        "1 9 open a abcdefghijklmnopqrstuvwxyz0123456789ABCDEFGHIJKLMNOPQRSTUVWXYZ-. -> ok\n",
        ("open", "a", 2, 0),
        ("done", 0, 0),
    ),
    (
        "1 9 openx abcdefghij_12345 vbat -> taken 4294967295\n",
        ("openx", "abcdefghij_12345", 3, 0),
        ("taken", 4294967295, 0),
    ),
    (
        "1 9 open a core -> handleopen\n",
        ("open", "a", 0, 0),
        ("handle open", 0, 0),
    ),
    (
        "1 9 open a core -> handlesfull 64\n",
        ("open", "a", 0, 0),
        ("handles full", 64, 0),
    ),
    ("1 9 close a -> ok\n", ("close", "a", 0, 0), ("done", 0, 0)),
    (
        "1 9 close a -> stillenabled 4294967295\n",
        ("close", "a", 0, 0),
        ("still enabled", 4294967295, 0),
    ),
    (
        "1 9 enable a -> ok 18446744073709551615\n",
        ("enable", "a", 0, 0),
        ("time", 18446744073709551615, 0),
    ),
    (
        "1 9 enable a -> countfull 65535\n",
        ("enable", "a", 0, 0),
        ("count full", 65535, 0),
    ),
    (
        "1 9 disable a -> ok\n",
        ("disable", "a", 0, 0),
        ("done", 0, 0),
    ),
    (
        "1 9 disable a -> unbalanced 0\n",
        ("disable", "a", 0, 0),
        ("unbalanced", 0, 0),
    ),
    (
        "1 9 set a 0 4294967295 -> ok 4294967295 18446744073709551615\n",
        ("set", "a", 0, 4294967295),
        ("set", 4294967295, 18446744073709551615),
    ),
    (
        "1 9 set a 5 4 -> badrange 5 4\n",
        ("set", "a", 5, 4),
        ("bad range", 5, 4),
    ),
    (
        "1 9 set a 4 5 -> novalue\n",
        ("set", "a", 4, 5),
        ("no value", 0, 0),
    ),
    (
        "1 9 load a 7 -> ok fast\n",
        ("load", "a", 7, 0),
        ("mode fast", 0, 0),
    ),
    (
        "1 9 load a 7 -> nomode 18446744073709551615\n",
        ("load", "a", 7, 0),
        ("no mode", 18446744073709551615, 0),
    ),
    (
        "1 9 load a 7 -> notallowed\n",
        ("load", "a", 7, 0),
        ("not allowed", 0, 0),
    ),
    (
        "1 9 mode a -> ok normal\n",
        ("mode", "a", 0, 0),
        ("mode normal", 0, 0),
    ),
    (
        "1 9 mode a -> ok idle\n",
        ("mode", "a", 0, 0),
        ("mode idle", 0, 0),
    ),
    (
        "1 9 mode a -> ok standby\n",
        ("mode", "a", 0, 0),
        ("mode standby", 0, 0),
    ),
    (
        "1 9 get a -> ok 4294967295\n",
        ("get", "a", 0, 0),
        ("uv", 4294967295, 0),
    ),
    ("1 9 get a -> ok 0\n", ("get", "a", 0, 0), ("uv", 0, 0)),
    (
        "1 9 get a -> nohandle\n",
        ("get", "a", 0, 0),
        ("no handle", 0, 0),
    ),
    ("1 9 ison a -> ok on\n", ("ison", "a", 0, 0), ("on", 1, 0)),
    ("1 9 ison a -> ok off\n", ("ison", "a", 0, 0), ("on", 0, 0)),
    (
        "1 9 list a 31 -> ok 0\n",
        ("list", "a", 31, 0),
        ("listed", 0, 0),
    ),
    (
        "1 9 list a 32 -> ok none\n",
        ("list", "a", 32, 0),
        ("not listed", 0, 0),
    ),
    (
        "1 9 supported a 1 2 -> ok yes\n",
        ("supported", "a", 1, 2),
        ("yes", 1, 0),
    ),
    (
        "1 9 supported a 1 2 -> ok no\n",
        ("supported", "a", 1, 2),
        ("yes", 0, 0),
    ),
    (
        "1 9 listen a -> ok\n",
        ("listen", "a", 0, 0),
        ("done", 0, 0),
    ),
    (
        "1 9 events a -> notlistening\n",
        ("events", "a", 0, 0),
        ("not listening", 0, 0),
    ),
    (
        "1 9 suspend mem -> suspended\n",
        ("suspend", "mem", 0, 0),
        ("suspended", 0, 0),
    ),
    (
        "1 9 suspend disk -> ok\n",
        ("suspend", "disk", 0, 0),
        ("done", 0, 0),
    ),
    (
        "1 9 resume -> notsuspended\n",
        ("resume", "", 0, 0),
        ("not suspended", 0, 0),
    ),
    (
        "1 9 release-boot -> ok\n",
        ("release-boot", "", 0, 0),
        ("done", 0, 0),
    ),
];

fn assert_writes(rt: &impl Abort, lines: &str, row: &Row, expected: &[Update]) {
    assert_same(rt, lines, row.writes.len(), expected.len());
    for (write, update) in row.writes.as_slice().iter().zip(expected) {
        let found = (write.chip, write.reg, write.mask, write.bits);
        assert_same(rt, lines, found, *update);
    }
}

fn assert_row(rt: &impl Abort, alloc: Global, board: &Board, lines: &str, listed: &Listed)
    requires { IsValid board.now }
{
    let row = row_of(rt, alloc, board, lines);
    let (worker, number, call, answer, writes) = *listed;
    assert_same(rt, lines, (row.worker, row.line), (worker, number));
    assert_same(rt, lines, seen(&row.call), call);
    assert_same(rt, lines, told(&row.answer), answer);
    assert_writes(rt, lines, &row, writes);
}

#[test]
fn rows_of_lines(rt: HostRuntime) {
    let board = small_board(&rt, rt.alloc());
    for (lines, listed) in ROWS {
        assert_row(&rt, rt.alloc(), &board, lines, listed);
    }
    for (lines, call, answer) in ANSWERS {
        let listed = (1, 9, *call, *answer, [].as_slice());
        assert_row(&rt, rt.alloc(), &board, lines, &listed);
    }
}

/// An event by its word, and the values that it tells.
fn event_told(event: &Event) -> (&'static str, u32, u32) {
    match *event {
        Event::PreVoltageChange { old, new } => ("pre voltage change", old, new),
        Event::VoltageChange { uv } => ("voltage change", uv, 0),
        Event::AbortVoltageChange { uv } => ("abort voltage change", uv, 0),
        Event::Enable => ("enable", 0, 0),
        Event::PreDisable => ("pre disable", 0, 0),
        Event::Disable => ("disable", 0, 0),
        Event::AbortDisable => ("abort disable", 0, 0),
    }
}

const SEVEN_EVENTS: &str =
    "1 9 events a -> ok 7; pre-voltage-change 0 4294967295; voltage-change 5; \
    abort-voltage-change 6; enable; pre-disable; disable; abort-disable\n";

const SEVEN: [(&str, u32, u32); 7] = [
    ("pre voltage change", 0, 4294967295),
    ("voltage change", 5, 0),
    ("abort voltage change", 6, 0),
    ("enable", 0, 0),
    ("pre disable", 0, 0),
    ("disable", 0, 0),
    ("abort disable", 0, 0),
];

fn assert_events(rt: &impl Abort, row: &Row) {
    let Answer::OkEvents { list } = &row.answer else {
        assert_same(rt, "events", told(&row.answer).0, "events");
        return;
    };
    assert_same(rt, "how many", list.len(), SEVEN.len());
    for (event, listed) in list.as_slice().iter().zip(&SEVEN) {
        assert_same(rt, "event", event_told(event), *listed);
    }
}

/// The row of a list of so many events.
fn events_row(alloc: Global, count: u32) -> Result<String, AllocError> {
    let mut text = format!(in alloc; "1 9 events a -> ok {count}")?;
    for _ in 0..count {
        text.push_str("; enable")?;
    }
    text.push('\n')?;
    Ok(text)
}

/// Whether a list of so many events is one of a row.
fn is_row_of_events(alloc: Global, board: &Board, count: u32) -> Result<bool, AllocError>
    requires { IsValid board.now }
{
    let text = match events_row(alloc, count) {
        Ok(text) => text,
        Err(_) => events_row(alloc, count)?,
    };
    Ok(read(alloc, board, text.as_bytes()).is_ok())
}

#[test]
fn lists_of_events(rt: HostRuntime) -> Result<(), AllocError> {
    let board = built_in_board(&rt, rt.alloc());
    let row = row_of(&rt, rt.alloc(), &board, SEVEN_EVENTS);
    assert_events(&rt, &row);
    let most = is_row_of_events(rt.alloc(), &board, 64)?;
    let more = is_row_of_events(rt.alloc(), &board, 65)?;
    assert_same(&rt, "64 and 65", (most, more), (true, false));
    Ok(())
}

/// Faults with the chip, the register, how many updates were taken, and the rails that changed.
const FAULTS: &[(&str, (u8, u8, u32), &[(u16, u32)])] = &[
    ("1 9 set a 1 2 -> fault 0 0x00 0\n", (0, 0x00, 0), &[]),
    (
        "1 9 set a 1 2 -> fault 255 0xfe 4294967295 core 5 -> 6 vbat 4294967295\n",
        (255, 0xfe, 4294967295),
        &[(0, 5), (1, 6), (3, 4294967295)],
    ),
    (
        "1 9 get a -> fault 1 0x0a 2 core 0\n",
        (1, 0x0a, 2),
        &[(0, 0)],
    ),
];

fn assert_fault(rt: &impl Abort, row: &Row, expected: (u8, u8, u32), rails: &[(u16, u32)]) {
    let Answer::Fault {
        chip,
        reg,
        applied,
        now,
    } = &row.answer
    else {
        assert_same(rt, "fault", told(&row.answer).0, "fault");
        return;
    };
    assert_same(rt, "fault", (*chip, *reg, *applied), expected);
    assert_same(rt, "how many", now.len(), rails.len());
    for ((id, uv), listed) in now.as_slice().iter().zip(rails) {
        assert_same(rt, "rail", (id.0, *uv), *listed);
    }
}

#[test]
fn faults_with_their_rails(rt: HostRuntime) {
    let board = small_board(&rt, rt.alloc());
    for (lines, fault, rails) in FAULTS {
        let row = row_of(&rt, rt.alloc(), &board, lines);
        assert_fault(&rt, &row, *fault, rails);
    }
}

/// A fault with a rail and a write, on the built-in board.
#[test]
fn a_fault_with_two_lists(rt: HostRuntime) {
    let board = built_in_board(&rt, rt.alloc());
    let lines = "1 9 set a 1 2 -> fault 0 0x10 1 core 806250\n+ 0 0x10 0x7f 0x21\n";
    let row = row_of(&rt, rt.alloc(), &board, lines);
    assert_fault(&rt, &row, (0, 0x10, 1), &[(0, 806250)]);
    assert_writes(&rt, lines, &row, &[(0, 0x10, 0x7f, 0x21)]);
}

/// Lines that are no row of the board.
const NO_ROWS: &[&str] = &[
    "",
    "\n",
    "1 9 get a -> ok 5",
    "1 9 get a -> ok 5\n\n",
    "1 9 get a -> ok 5\r\n",
    "1 9 get a -> ok 5 \n",
    "1 9 get a -> ok  5\n",
    "1 9 get a ->  ok 5\n",
    "1 9 get a  -> ok 5\n",
    "1 9 get  a -> ok 5\n",
    "1 9  get a -> ok 5\n",
    "1  9 get a -> ok 5\n",
    " 1 9 get a -> ok 5\n",
    "1 9 get a->ok 5\n",
    "1 9 get a ok 5\n",
    "65536 9 get a -> ok 5\n",
    "1 4294967296 get a -> ok 5\n",
    "01 9 get a -> ok 5\n",
    "1 09 get a -> ok 5\n",
    "+1 9 get a -> ok 5\n",
    "get a -> ok 5\n",
    "1 9 get a -> ok 05\n",
    "1 9 get a -> ok 4294967296\n",
    "1 9 get a -> ok\n",
    "1 9 get a -> ok on\n",
    "1 9 get a -> OK 5\n",
    "1 9 gets a -> ok 5\n",
    "1 9 get A -> ok 5\n",
    "1 9 get abcdefghij_123456 -> ok 5\n",
    "1 9 get \u{e9} -> ok 5\n",
    "1 9 open a core -> ok 5\n",
    "1 9 open a core2 -> ok\n",
    "1 9 open a abcdefghijklmnopqrstuvwxyz0123456789ABCDEFGHIJKLMNOPQRSTUVWXYZ-.0 -> ok\n",
    "1 9 open a  -> ok\n",
    "1 9 open a -> ok\n",
    "1 9 open abcdefghij_123456 core -> ok\n",
    "1 9 open a core -> taken 4294967296\n",
    "1 9 open a core -> handlesfull 63\n",
    "1 9 open a core -> handlesfull 65\n",
    "1 9 close a -> stillenabled 4294967296\n",
    "1 9 enable a -> ok 18446744073709551616\n",
    "1 9 enable a -> ok\n",
    "1 9 enable a -> countfull 65534\n",
    "1 9 enable a -> countfull 65536\n",
    "1 9 disable a -> unbalanced 1\n",
    "1 9 set a 4294967296 2 -> novalue\n",
    "1 9 set a 01 2 -> novalue\n",
    "1 9 set a 1 -> novalue\n",
    "1 9 set a 1 2 -> novalue 0\n",
    "1 9 set a 1 2 -> ok 5\n",
    "1 9 set a 1 2 -> ok 5 6 7\n",
    "1 9 set a 1 2 -> ok 4294967296 6\n",
    "1 9 set a 1 2 -> ok 5 18446744073709551616\n",
    "1 9 set a 2 1 -> badrange 2\n",
    "1 9 set a 2 1 -> badrange 2 4294967296\n",
    "1 9 load a 7 -> nomode 18446744073709551616\n",
    "1 9 load a 7 -> ok slow\n",
    "1 9 ison a -> ok yes\n",
    "1 9 list a 4294967296 -> ok 5\n",
    "1 9 list a 1 -> ok 4294967296\n",
    "1 9 supported a 1 2 -> ok on\n",
    "1 9 suspend ram -> ok\n",
    "1 9 resume  -> ok\n",
    "1 9 resume -> ok 5\n",
    "1 9 events a -> ok\n",
    "1 9 events a -> ok 1\n",
    "1 9 events a -> ok 0; enable\n",
    "1 9 events a -> ok 01; enable\n",
    "1 9 events a -> ok 1;enable\n",
    "1 9 events a -> ok 1; enabled\n",
    "1 9 events a -> ok 1; enable;\n",
    "1 9 events a -> ok 1; enable 0\n",
    "1 9 events a -> ok 1; voltage-change\n",
    "1 9 events a -> ok 1; voltage-change 4294967296\n",
    "1 9 events a -> ok 2; enable; off\n",
    "1 9 get a -> fault 256 0x00 0\n",
    "1 9 get a -> fault 0 0x0 0\n",
    "1 9 get a -> fault 0 0x0A 0\n",
    "1 9 get a -> fault 0 0x00\n",
    "1 9 get a -> fault 0 0x00 4294967296\n",
    "1 9 get a -> fault 0 0x00 0 \n",
    "1 9 get a -> fault 0 0x00 0 core\n",
    "1 9 get a -> fault 0 0x00 0 core2 5\n",
    "1 9 get a -> fault 0 0x00 0 core 4294967296\n",
    "1 9 get a -> fault 0 0x00 0 core 5 vdd 5\n",
    "1 9 get a -> ok 5\n+ 2 0x20 0x01 0x00\n",
    "1 9 get a -> ok 5\n+ 256 0x20 0x01 0x00\n",
    "1 9 get a -> ok 5\n+ 00 0x20 0x01 0x00\n",
    "1 9 get a -> ok 5\n+ 0 0x20 0x01\n",
    "1 9 get a -> ok 5\n+ 0 0x20 0x01 0x00",
    "1 9 get a -> ok 5\n+ 0 0x20 0x01 0x00 \n",
    "1 9 get a -> ok 5\n+ 0 0x20 0x01 0x0g\n",
    "1 9 get a -> ok 5\n+ 0 0x100 0x01 0x00\n",
    "1 9 get a -> ok 5\n+0 0x20 0x01 0x00\n",
    "1 9 get a -> ok 5\n+ 0 0x20 0x01 0x00\n1 10 get a -> ok 5\n",
];

fn assert_no_row(rt: &impl Abort, alloc: Global, board: &Board, lines: &[u8], what: &str)
    requires { IsValid board.now }
{
    let found = matches!(read(alloc, board, lines), Err(RowFault::NotARow));
    assert_same(rt, what, found, true);
}

#[test]
fn lines_of_no_row(rt: HostRuntime) {
    let board = small_board(&rt, rt.alloc());
    for lines in NO_ROWS {
        assert_no_row(&rt, rt.alloc(), &board, lines.as_bytes(), lines);
    }
    let bytes = b"1 9 get \xff -> ok 5\n".as_slice();
    assert_no_row(&rt, rt.alloc(), &board, bytes, "no text");
}
