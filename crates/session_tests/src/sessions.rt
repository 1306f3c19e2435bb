//! Whole sessions through `front`, with text that was worked out by hand. In the text of a session `|` ends a
//! line.
use crate::same::assert_same;
use reg_outside::{Lab, MemLab, MemSink, MemSource, NullLab, Source};
use regulator_main::{Status, code, front};
use session::laws::one_reading;
use std::alloc::{AllocError, Global};
use std::process::Abort;

const DEMO: &str = "%session 1|%board demo|";

const DTS: &str = "%session 1|%board dts|";

/// The words of a command.
fn words_of(alloc: Global, text: &str) -> Result<Vec<String>, AllocError> {
    let mut words = Vec::new(alloc);
    for word in text.split_whitespace() {
        words.push(String::from_str(alloc, word)?)?;
    }
    Ok(words)
}

fn push_lines(text: &mut String, lines: &str) -> Result<(), AllocError> {
    for c in lines.chars() {
        text.push(if c == '|' { '\n' } else { c })?;
    }
    Ok(())
}

/// The text of a session by its beginning and the lines after it.
fn text_of(alloc: Global, head: &str, lines: &str) -> Result<String, AllocError> {
    let mut text = String::new(alloc);
    push_lines(&mut text, head)?;
    push_lines(&mut text, lines)?;
    Ok(text)
}

/// The text of a session by its beginning, one line so many times, and its end.
fn long_text(
    alloc: Global,
    head: &str,
    line: &str,
    count: u32,
    end: &str,
) -> Result<String, AllocError> {
    let mut text = text_of(alloc, head, "")?;
    for _ in 0..count {
        push_lines(&mut text, line)?;
    }
    push_lines(&mut text, end)?;
    Ok(text)
}

/// How a command of these words ends.
fn said<L: Lab>(
    alloc: Global,
    words: &str,
    source: &mut MemSource,
    sink: &mut MemSink,
    lab: &mut L,
) -> Result<Status, AllocError> {
    let words = words_of(alloc, words)?;
    Ok(front(alloc, words.as_slice(), source, sink, lab))
}

/// How a session ended, and what was written.
#[derive(Drop)]
struct Ended {
    status: Status,
    written: Vec<u8>,
}

/// Runs a command on a session.
fn outcome<L: Lab>(
    alloc: Global,
    words: &str,
    text: &str,
    lab: &mut L,
) -> Result<Ended, AllocError> {
    let mut source = MemSource::new(text.as_bytes().to_vec(alloc)?, Vec::new(alloc));
    let mut sink = MemSink::new(alloc, 1_000_000, Vec::new(alloc))?;
    let status = said(alloc, words, &mut source, &mut sink, lab)?;
    let written = sink.bytes().to_vec(alloc)?;
    Ok(Ended { status, written })
}

/// A command on a session ends like this, and writes this.
fn assert_ends<L: Lab>(
    rt: &impl Abort,
    alloc: Global,
    words: &str,
    text: &str,
    lab: &mut L,
    status: u8,
    written: &str,
) -> Result<(), AllocError> {
    let ended = outcome(alloc, words, text, lab)?;
    assert_same(rt, text, code(&ended.status), status);
    assert_same(rt, text, ended.written.as_slice(), written.as_bytes());
    Ok(())
}

/// A session is refused for its first fault, which is told as its line and its kind.
fn assert_refused(
    rt: &impl Abort,
    alloc: Global,
    text: &str,
    fault: &str,
) -> Result<(), AllocError> {
    let refusal = format!(in alloc; "refused {fault}\n")?;
    assert_ends(rt, alloc, "solo", text, &mut NullLab, 5, refusal.as_str())
}

fn assert_each_refused(
    rt: &impl Abort,
    alloc: Global,
    head: &str,
    rows: &str,
) -> Result<(), AllocError> {
    for row in rows.lines() {
        assert_row_refused(rt, alloc, head, row)?;
    }
    Ok(())
}

fn assert_row_refused(
    rt: &impl Abort,
    alloc: Global,
    head: &str,
    row: &str,
) -> Result<(), AllocError> {
    let (fault, lines) = row.split_once(": ").expect(rt, "a row");
    let text = text_of(alloc, head, lines)?;
    assert_refused(rt, alloc, text.as_str(), fault)
}

/// The line and the kind of the first fault of a text, and the text.
const HEADS: &str = "\
    1 badsession: \n\
    1 badsession: %session 1\n\
    1 badsession: %session 2|\n\
    2 badsession: %session 1|\n\
    2 badsession: %session 1|%board dts\n\
    2 badsession: %session 1|%board dtb|\n\
    3 badsession: %session 1|%board dts|\n\
    4 badsession: %session 1|%board dts|%end|\n\
    4 badsession: %session 1|%board dts|/dts-v1/;|\n";

/// The same of texts that begin with the demo board.
const AFTER_BOARD: &str = "\
    3 badsession: \n\
    4 badsession: %reg 0 0x20 0x01|\n\
    4 badsession: %reg 4294967295 0xff 0x00|\n\
    3 badsession: %reg 4294967296 0xff 0x00|\n\
    3 badsession: %reg 0 0x2 0x01|\n\
    3 badsession: %reg 0 0x20 0x0A|\n\
    3 badsession: %reg 00 0x20 0x01|\n\
    3 badsession: %reg 0  0x20 0x01|\n\
    4 badsession: %fault 16 1|\n\
    3 badsession: %fault 17 1|\n\
    3 badsession: %fault 0 0|\n\
    3 badsession: %fault 0 1 |\n\
    3 badreg: %reg 1 0x00 0x00|%done|\n\
    4 badreg: %reg 0 0x20 0x01|%reg 1 0x00 0x00|%reg 2 0x00 0x00|%done|\n\
    5 badsession: %reg 1 0x00 0x00|%done|x|\n\
    3 badsession: |\n\
    3 badsession: %end|\n\
    3 badsession: %worker\n\
    3 badsession: %done\n\
    4 badsession: %done||\n\
    4 badsession: %done|%done|\n\
    4 badsession: %done|%done\n";

/// The same of texts that begin with the demo board and a worker.
const IN_WORKER: &str = "\
    4 badsession: \n\
    4 badsession: open a core\n\
    4 notyet: |\n\
    4 notyet: get a|\n\
    4 notyet: openx a core|\n\
    4 notyet: open a vdd|\n\
    4 notyet: open 1a core|\n\
    4 notyet: open  core|\n\
    4 notyet: open abcdefghij_123456 core|\n\
    5 badsession: open abcdefghij_12345 core|\n\
    5 notyet: open a core|open a core|\n\
    5 notyet: open a core|get b|\n\
    5 notyet: open a core|get ab|\n\
    5 notyet: open a core|set b 1 2|\n\
    5 notyet: open a core|set a 01 2|\n\
    5 notyet: open a core|set a +1 2|\n\
    5 notyet: open a core|set a 1|\n\
    5 notyet: open a core|set a 4294967296 1|\n\
    6 badsession: open a core|set a 4294967295 0|\n\
    5 notyet: open a core|enable a|\n\
    5 badsession: open a core|enable a\n\
    5 badsession: %end|\n\
    6 badsession: %end|%worker|\n\
    5 badsession: %end|%worker\n\
    6 notyet: %end|%worker|get a|\n\
    5 badsession: %end|%end|\n\
    5 badsession: %end|%reg 0 0x20 0x01|\n\
    7 badsession: open a core|%end|%done|%done|\n\
    7 badsession: open a core|%end|%done|x\n";

/// The same of texts whose board is a devicetree, which begins in line 3: of trees that make no board, and of boards
/// that aren't built yet.
const BOARDS: &str = "\
    5 syntax 18: /dts-v1/;|/ { a {|%end|%done|\n\
    2 supplyloop 0: /dts-v1/;|/ { v: v { compatible = \"regulator-fixed\"; vin-supply = <&w>; }; w: w { compatible = \"regulator-fixed\"; vin-supply = <&v>; }; };|%end|%done|\n\
    2 norails: /dts-v1/;|%end|%done|\n\
    3 badchar 0: !|%end|%done|\n\
    4 nolabel 20: /dts-v1/; / {| x = <&y>;|};|%end|%done|\n\
    2 onebound 0: /dts-v1/;|/ { pmic { compatible = \"example,pm4\"; regulators { buck1 { regulator-min-microvolt = <800000>; }; }; }; };|%end|%done|\n\
    2 oneway 0 1: /dts-v1/;|/ { pmic { compatible = \"example,pm4\"; regulators { buck1 { regulator-coupled-with = <&b2>; regulator-coupled-max-spread = <100000>; }; b2: buck2 { }; }; }; };|%end|%done|\n\
    2 gapoverspread 0 6250 6249: /dts-v1/;|/ { pmic@48 { compatible = \"example,pm4\"; regulators {|b1: buck1 { regulator-min-microvolt = <800000>; regulator-max-microvolt = <1000000>; regulator-coupled-with = <&b2>; regulator-coupled-max-spread = <6249>; };|b2: buck2 { regulator-min-microvolt = <800000>; regulator-max-microvolt = <1000000>; regulator-coupled-with = <&b1>; regulator-coupled-max-spread = <6249>; };|}; }; };|%end|%done|\n\
    2 notyet: /dts-v1/;|/ { pmic@48 { compatible = \"example,pm4\"; regulators {|b1: buck1 { regulator-min-microvolt = <800000>; regulator-max-microvolt = <1000000>; regulator-coupled-with = <&b2>; regulator-coupled-max-spread = <100000>; };|b2: buck2 { regulator-min-microvolt = <800000>; regulator-max-microvolt = <1000000>; regulator-coupled-with = <&b1>; regulator-coupled-max-spread = <100000>; };|}; }; };|%end|%done|\n\
    7 notyet: /dts-v1/;|/ { v { compatible = \"regulator-fixed\"; }; };|%end|%worker|open a v|\n";

#[test]
fn first_faults(rt: HostRuntime) -> Result<(), AllocError> {
    assert_each_refused(&rt, rt.alloc(), "", HEADS)?;
    assert_each_refused(&rt, rt.alloc(), DEMO, AFTER_BOARD)?;
    assert_each_refused(&rt, rt.alloc(), DTS, BOARDS)?;
    let head = "%session 1|%board demo|%worker|";
    assert_each_refused(&rt, rt.alloc(), head, IN_WORKER)
}

/// A text that is as long as it may be, and a longer one.
#[test]
fn longest_text(rt: HostRuntime) -> Result<(), AllocError> {
    assert_long_refused(&rt, rt.alloc(), 4_194_304, "1 badsession")?;
    assert_long_refused(&rt, rt.alloc(), 4_194_305, "0 toolong")
}

/// A text of so many bytes that is no session is refused like this.
fn assert_long_refused(
    rt: &impl Abort,
    alloc: Global,
    bytes: u32,
    fault: &str,
) -> Result<(), AllocError> {
    let text = long_text(alloc, "", "%", bytes, "")?;
    assert_refused(rt, alloc, text.as_str(), fault)
}

/// A worker that opens `a`.
const OPENED: &str = "%session 1|%board demo|%worker|open a core|";

/// More workers than there may be.
#[test]
fn too_many_workers(rt: HostRuntime) -> Result<(), AllocError> {
    let text = long_text(rt.alloc(), DEMO, "%worker|%end|", 16, "%worker|")?;
    assert_refused(&rt, rt.alloc(), text.as_str(), "35 toomanyworkers")
}

/// A worker with more call lines than it may have.
#[test]
fn too_many_lines(rt: HostRuntime) -> Result<(), AllocError> {
    let text = long_text(rt.alloc(), OPENED, "get a|", 4096, "")?;
    assert_refused(&rt, rt.alloc(), text.as_str(), "4100 toomanylines")
}

/// A worker whose last call line may be of another form, and is one too many.
#[test]
fn another_form_is_too_many(rt: HostRuntime) -> Result<(), AllocError> {
    let text = long_text(rt.alloc(), OPENED, "get a|", 4095, "ison a|")?;
    assert_refused(&rt, rt.alloc(), text.as_str(), "4100 notyet")
}

/// A worker with as many call lines as it may have.
#[test]
fn most_lines(rt: HostRuntime) -> Result<(), AllocError> {
    let last = "set a 800000 4294967295|%end|%done|";
    let text = long_text(rt.alloc(), OPENED, "get a|", 4094, last)?;
    let ended = outcome(rt.alloc(), "solo", text.as_str(), &mut NullLab)?;
    let end = "1 4096 set a 800000 4294967295 -> ok 800000 0\n\
        rail core off 800000 normal use 0 enables 0\n\
        done 1 4096\n";
    assert_same(&rt, "status", code(&ended.status), 0);
    assert!(rt; ended.written.as_slice().ends_with(end.as_bytes()));
    Ok(())
}

/// A session's lines after its board, with what is printed of it.
const HISTORIES: &[(&str, &str)] = &[
    (
        "%done|",
        "rail core off 800000 normal use 0 enables 0\n\
        done 0 0\n",
    ),
    (
        "%worker|%end|%done|",
        "rail core off 800000 normal use 0 enables 0\n\
        done 1 0\n",
    ),
    (
        "%worker|open a core|set a 900001 950000|get a|%end|%done|",
        "1 1 open a core -> ok\n\
        1 2 set a 900001 950000 -> ok 906250 9\n\
        1 3 get a -> ok 906250\n\
        rail core off 906250 normal use 0 enables 0\n\
        done 1 3\n",
    ),
    (
        "%worker|open a core|set a 900001 906249|set a 906250 906250|%end|%done|",
        "1 1 open a core -> ok\n\
        1 2 set a 900001 906249 -> novalue\n\
        1 3 set a 906250 906250 -> ok 906250 9\n\
        rail core off 906250 normal use 0 enables 0\n\
        done 1 3\n",
    ),
    (
        "%worker|open a core|set a 900000 899999|%end|%done|",
        "1 1 open a core -> ok\n\
        1 2 set a 900000 899999 -> badrange 900000 899999\n\
        rail core off 800000 normal use 0 enables 0\n\
        done 1 2\n",
    ),
    (
        "%worker|open a core|set a 990000 2000000|%end|%done|",
        "1 1 open a core -> ok\n\
        1 2 set a 990000 2000000 -> ok 993750 16\n\
        rail core off 993750 normal use 0 enables 0\n\
        done 1 2\n",
    ),
    (
        "%worker|open a core|set a 1000001 1100000|set a 1000000 4294967295|%end|%done|",
        "1 1 open a core -> ok\n\
        1 2 set a 1000001 1100000 -> novalue\n\
        1 3 set a 1000000 4294967295 -> ok 1000000 16\n\
        rail core off 1000000 normal use 0 enables 0\n\
        done 1 3\n",
    ),
];

#[test]
fn histories(rt: HostRuntime) -> Result<(), AllocError> {
    for &(lines, printed) in HISTORIES {
        assert_row(&rt, rt.alloc(), &("solo", DEMO, lines, 0, printed))?;
    }
    Ok(())
}

/// A command, the beginning of a session and the lines after it, the exit status, and what is written.
type Row = (&'static str, &'static str, &'static str, u8, &'static str);

fn assert_row(rt: &impl Abort, alloc: Global, row: &Row) -> Result<(), AllocError> {
    let text = text_of(alloc, row.1, row.2)?;
    assert_ends(rt, alloc, row.0, text.as_str(), &mut NullLab, row.3, row.4)
}

/// A board of a chip and a fixed rail, whose load is one update: it brings buck3 to 1500000 µV.
const BOARD_S: &str = "%session 1|%board dts|/dts-v1/;|\
    / { vbat: vbat { compatible = \"regulator-fixed\"; regulator-min-microvolt = <5000000>; regulator-max-microvolt = <5000000>; };|\
    pmic@48 { compatible = \"example,pm4\"; vin3-supply = <&vbat>; vinl1-supply = <&b3>; regulators {|\
    b3: buck3 { regulator-min-microvolt = <1500000>; regulator-max-microvolt = <1500000>; };|\
    ldo1 { regulator-min-microvolt = <1200000>; regulator-max-microvolt = <3300000>; };|\
    }; }; };|%end|";

const S_LOADED: &str = "\
    rail buck3 off 1500000 normal use 0 enables 0\n\
    rail ldo1 off 1200000 normal use 0 enables 0\n\
    rail vbat off 5000000 normal use 0 enables 0\n\
    done 1 0\n";

/// Two workers on one rail.
const TWO_WORKERS: &str = "\
    %worker|open a core|set a 900001 950000|%end|\
    %worker|open b core|get b|set b 950001 1000000|%end|%done|";

/// The same, where the second update of the first worker is refused.
const SECOND_REFUSED: &str = "%fault 1 2|\
    %worker|open a core|set a 900001 950000|%end|\
    %worker|open b core|get b|set b 850000 900000|%end|%done|";

const ROWS: &[Row] = &[
    ("check", BOARD_S, "%worker|%end|%done|", 0, S_LOADED),
    ("solo", BOARD_S, "%worker|%end|%done|", 0, S_LOADED),
    (
        "check",
        BOARD_S,
        "%fault 0 1|%worker|%end|%done|",
        0,
        S_LOADED,
    ),
    (
        "solo",
        BOARD_S,
        "%fault 0 1|%worker|%end|%done|",
        6,
        "loadfault 0 0x12\n",
    ),
    (
        "solo",
        BOARD_S,
        "%fault 0 2|%fault 1 1|%worker|%end|%done|",
        0,
        S_LOADED,
    ),
    (
        "check",
        DEMO,
        "%reg 0 0x20 0x01|%done|",
        0,
        "rail core on 800000 normal use 1 enables 0\n\
        done 0 0\n",
    ),
    (
        "solo",
        DEMO,
        "%reg 0 0x20 0x01|%done|",
        0,
        "rail core on 800000 normal use 1 enables 0\n\
        done 0 0\n",
    ),
    (
        "check",
        DEMO,
        TWO_WORKERS,
        0,
        "rail core off 800000 normal use 0 enables 0\n\
        done 2 0\n",
    ),
    (
        "solo",
        DEMO,
        TWO_WORKERS,
        0,
        "1 1 open a core -> ok\n\
        1 2 set a 900001 950000 -> ok 906250 9\n\
        2 1 open b core -> ok\n\
        2 2 get b -> ok 906250\n\
        2 3 set b 950001 1000000 -> novalue\n\
        rail core off 906250 normal use 0 enables 0\n\
        done 2 5\n",
    ),
    (
        "solo",
        DEMO,
        SECOND_REFUSED,
        0,
        "1 1 open a core -> ok\n\
        1 2 set a 900001 950000 -> fault 0 0x10 1 core 806250\n\
        2 1 open b core -> ok\n\
        2 2 get b -> ok 806250\n\
        2 3 set b 850000 900000 -> ok 850000 4\n\
        rail core off 850000 normal use 0 enables 0\n\
        done 2 5\n",
    ),
    (
        "check",
        DEMO,
        "%reg 1 0x00 0x00|%done|",
        5,
        "refused 3 badreg\n",
    ),
];

#[test]
fn commands_on_boards(rt: HostRuntime) -> Result<(), AllocError> {
    for row in ROWS {
        assert_row(&rt, rt.alloc(), row)?;
    }
    Ok(())
}

/// `solo` makes the one update of the load, on the load's wire; `check` makes none.
#[test]
fn updates_of_the_load(rt: HostRuntime) -> Result<(), AllocError> {
    let text = text_of(rt.alloc(), BOARD_S, "%worker|%end|%done|")?;
    let mut lab = MemLab::new(rt.alloc(), 1, 10)?;
    assert_ends(
        &rt,
        rt.alloc(),
        "check",
        text.as_str(),
        &mut lab,
        0,
        S_LOADED,
    )?;
    assert_same(&rt, "check", lab.list(0).len(), 0);
    assert_ends(
        &rt,
        rt.alloc(),
        "solo",
        text.as_str(),
        &mut lab,
        0,
        S_LOADED,
    )?;
    let taken = [(0, 0x12, 0x1f, 0x0e)];
    assert_same(&rt, "solo", lab.list(0), taken.as_slice());
    Ok(())
}

/// Without room for an update the bus itself refuses the load.
#[test]
fn the_bus_refuses_the_load(rt: HostRuntime) -> Result<(), AllocError> {
    let text = text_of(rt.alloc(), BOARD_S, "%worker|%end|%done|")?;
    let mut lab = MemLab::new(rt.alloc(), 1, 0)?;
    assert_ends(
        &rt,
        rt.alloc(),
        "solo",
        text.as_str(),
        &mut lab,
        6,
        "loadfault 0 0x12\n",
    )
}

/// With room for one update the second is refused: the rail stands where the first brought it.
#[test]
fn the_wire_refuses(rt: HostRuntime) -> Result<(), AllocError> {
    let lines = "%worker|open a core|set a 900001 950000|set a 800000 800000|get a|%end|%done|";
    let printed = "\
        1 1 open a core -> ok\n\
        1 2 set a 900001 950000 -> fault 0 0x10 1 core 806250\n\
        1 3 set a 800000 800000 -> fault 0 0x10 0\n\
        1 4 get a -> ok 806250\n\
        rail core off 806250 normal use 0 enables 0\n\
        done 1 4\n";
    let text = text_of(rt.alloc(), DEMO, lines)?;
    let mut lab = MemLab::new(rt.alloc(), 1, 1)?;
    assert_ends(&rt, rt.alloc(), "solo", text.as_str(), &mut lab, 0, printed)?;
    assert_same(&rt, "the load", lab.list(0).len(), 0);
    let taken = [(0, 0x10, 0x7f, 33)];
    assert_same(&rt, "the worker", lab.list(1), taken.as_slice());
    Ok(())
}

/// A session with a worker that makes no call.
fn idle(alloc: Global, fail: Vec<u32>) -> Result<MemSource, AllocError> {
    let text = b"%session 1\n%board demo\n%worker\n%end\n%done\n";
    Ok(MemSource::new(text.to_vec(alloc)?, fail))
}

/// A command of these words ends like this, and this is written where five bytes have room.
fn assert_ended(
    rt: &impl Abort,
    alloc: Global,
    words: &str,
    source: &mut MemSource,
    status: u8,
    written: &str,
) -> Result<Status, AllocError> {
    let mut sink = MemSink::new(alloc, 5, Vec::new(alloc))?;
    let found = said(alloc, words, source, &mut sink, &mut NullLab)?;
    assert_same(rt, words, code(&found), status);
    assert_same(rt, words, sink.bytes(), written.as_bytes());
    Ok(found)
}

#[test]
fn other_words(rt: HostRuntime) -> Result<(), AllocError> {
    for words in [
        "",
        "x",
        "solo x",
        "check x",
        "run",
        "gen 0",
        "solo --writes",
    ] {
        assert_untouched(&rt, rt.alloc(), words)?;
    }
    Ok(())
}

/// These words are no command, so nothing is read.
fn assert_untouched(rt: &impl Abort, alloc: Global, words: &str) -> Result<(), AllocError> {
    let mut source = idle(alloc, Vec::new(alloc))?;
    assert_ended(rt, alloc, words, &mut source, 2, "")?;
    assert_same(rt, words, source.read(&mut [0]), Ok(1));
    Ok(())
}

#[test]
fn the_second_read_fails(rt: HostRuntime) -> Result<(), AllocError> {
    for words in ["check", "solo"] {
        let fail = vec![in rt.alloc(); 2]?;
        let mut source = idle(rt.alloc(), fail)?;
        assert_ended(&rt, rt.alloc(), words, &mut source, 3, "")?;
    }
    Ok(())
}

#[test]
fn five_bytes_fit(rt: HostRuntime) -> Result<(), AllocError> {
    for words in ["check", "solo"] {
        let mut source = idle(rt.alloc(), Vec::new(rt.alloc()))?;
        let found = assert_ended(&rt, rt.alloc(), words, &mut source, 4, "rail ")?;
        assert!(rt; matches!(found, Status::WriteFault { kept: 5 }));
    }
    Ok(())
}

#[test]
fn laws_of_sessions() {
    one_reading();
}
