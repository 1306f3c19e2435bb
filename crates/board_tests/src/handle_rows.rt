//! Handles of a rail as lines of a table.
ghost use Rattle.std.specs.Prelude.{◌≡◌};

use crate::same::assert_same;
use board::Handle;
use std::process::Abort;
use use_counts::HandleRow;

/// Worker, name, enables, request in µV, load in µA, cursor, and whether the handle is exclusive.
pub(crate) type Listed = (
    u16,
    &'static str,
    u32,
    Option<(u32, u32)>,
    u32,
    Option<u32>,
    bool,
);

pub(crate) fn handle(rt: &impl Abort, name: &str) -> Handle
    ensures { result.bytes ≡ name.now }
{
    Handle::from(name).expect(rt, "a name of at most 16 bytes")
}

pub(crate) fn row_of(rt: &impl Abort, listed: &Listed) -> HandleRow {
    let (worker, name, enables, request, load, cursor, exclusive) = *listed;
    HandleRow {
        worker,
        handle: handle(rt, name),
        enables,
        request,
        load,
        cursor,
        exclusive,
    }
}

pub(crate) fn assert_row(rt: &impl Abort, row: &HandleRow, listed: &Listed) {
    let (worker, name, enables, request, load, cursor, exclusive) = *listed;
    assert_same(
        rt,
        "handle",
        (row.worker, row.handle.as_str(), row.exclusive),
        (worker, name, exclusive),
    );
    assert_same(
        rt,
        name,
        (row.enables, row.request, row.load, row.cursor),
        (enables, request, load, cursor),
    );
}

pub(crate) fn assert_rows(rt: &impl Abort, found: &[HandleRow], expected: &[Listed]) {
    assert_same(rt, "how many handles", found.len(), expected.len());
    for (row, listed) in found.iter().zip(expected) {
        assert_row(rt, row, listed);
    }
}
