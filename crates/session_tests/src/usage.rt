//! What the user of the program is told, and its exit status.
use crate::same::assert_same;
use board_draft::BoardFault;
use regulator_main::{Status, exit_code};
use session::{SessionFault, SessionKind};
use std::alloc::Global;
use std::cell::RefCell;
use std::fmt::{Display, Write};
use std::io;
use std::io::ErrorKind;
use std::process::{Abort, ExitCode};

/// A standard error that keeps its text.
#[derive(Drop)]
struct Kept {
    alloc: Global,
    text: RefCell<String>,
}

impl Alloc for Kept {
    type A = Global;

    fn alloc(&self) -> Global {
        self.alloc
    }
}

impl Kept {
    fn add(&self, piece: impl Display + Drop, end: &str) -> io::Result<()> {
        match self.text.try_borrow_mut() {
            Ok(mut text) => {
                write!(text, "{piece}{end}")?;
                Ok(())
            }
            Err(_) => Err(io::Error::from(ErrorKind::Other)),
        }
    }
}

impl Eprint for Kept {
    fn eprint<D: Display + Drop>(&self, value: D) -> io::Result<()> {
        self.add(value, "")
    }

    fn eprintln<D: Display + Drop>(&self, value: D) -> io::Result<()> {
        self.add(value, "\n")
    }
}

/// A status, its number, and the line on the standard error.
type Row = (Status, u8, &'static str);

const ROWS: &[Row] = &[
    (Status::Done, 0, ""),
    (
        Status::Memory,
        1,
        "no memory was left, and nothing was written\n",
    ),
    (Status::Words, 2, "usage: regulator COMMAND\n"),
    (
        Status::ReadFault,
        3,
        "the session can't be read, and nothing was written\n",
    ),
    (
        Status::WriteFault { kept: 5 },
        4,
        "the answers can't be written; 5 bytes of them went out\n",
    ),
    (
        Status::LoadFault { chip: 0, reg: 0x0a },
        6,
        "the bus refused the update of register 0x0a of chip 0 while the board was loaded\n",
    ),
];

/// The line and the kind of a refusal, and the line on the standard error.
type Refusal = (u32, SessionKind, &'static str);

const REFUSALS: &[Refusal] = &[
    (
        0,
        SessionKind::TooLong,
        "refused 0 toolong: give at most 4194304 bytes\n",
    ),
    (
        1,
        SessionKind::BadSession,
        "refused 1 badsession: write '%session 1', with neither a byte order mark before it nor a carriage return behind it\n",
    ),
    (
        2,
        SessionKind::BadSession,
        "refused 2 badsession: write '%board demo' or '%board dts'\n",
    ),
    (
        7,
        SessionKind::BadSession,
        "refused 7 badsession: write '%reg', '%fault', '%worker' or '%done', ended by a newline, and end each board text and worker by '%end'\n",
    ),
    (
        5,
        SessionKind::NotYet,
        "refused 5 notyet: leave out what isn't built yet, on this line or on this board\n",
    ),
    (
        35,
        SessionKind::TooManyWorkers,
        "refused 35 toomanyworkers: give at most 16 workers\n",
    ),
    (
        4100,
        SessionKind::TooManyLines,
        "refused 4100 toomanylines: give each worker at most 4096 calls\n",
    ),
    (
        4,
        SessionKind::NoLabel(20),
        "refused 4 nolabel 20: give the label there to a node; before a body, to an earlier one\n",
    ),
    (
        2,
        SessionKind::Board(BoardFault::OneBound(3)),
        "refused 2 onebound 3: give the rail both bounds, or neither\n",
    ),
    (
        2,
        SessionKind::NoVector(1),
        "refused 2 novector 1: widen the bounds of the rail or of what moves with it, or the spread\n",
    ),
];

#[test]
fn each_refusal_is_told_with_what_to_change(rt: HostRuntime) {
    for &(line, kind, told) in REFUSALS {
        assert_row(
            &rt,
            &(Status::SessionRefused(SessionFault { line, kind }), 5, told),
        );
    }
}

#[test]
fn each_status_has_its_number_and_its_line(rt: HostRuntime) {
    for row in ROWS {
        assert_row(&rt, row);
    }
}

fn assert_row(rt: &(impl Abort + Alloc<A = Global>), row: &Row) {
    let kept = Kept {
        alloc: rt.alloc(),
        text: RefCell::new(String::new(rt.alloc())),
    };
    assert_same(rt, "status", exit_code(&kept, row.0), ExitCode::from(row.1));
    let Kept { text: written, .. } = kept;
    assert_same(rt, "told", written.into_inner().as_str(), row.2);
}
