ghost use Rattle.std.specs.Prelude.{◌≡◌, ◌<◌, ◌≤◌, ◌-◌, ◌*◌, ◌^◌, length};
ghost use Rattle.board.specs.Valid.{IsValid};
ghost use Rattle.plain_board.specs.Counts.{enables, votes, use_count};
ghost use Rattle.plain_board.specs.Inv.{Inv};

use crate::plain::Plain;
use board::{Board, RailId};

/// The enables of all handles on a rail.
pub(crate) fn enables(plain: &Plain, id: RailId) -> u64
    requires { length plain.now.handles < 2 ^ 32 }
    ensures value { result ≡ enables plain.now id.0 }
    ensures bound { result ≤ (2 ^ 32 - 1) * length plain.now.handles }
{
    let mut sum = 0;
    for (on, row) in plain.handles.as_slice() {
        if *on == id {
            sum += u64::from(row.enables);
        }
    }
    sum
}

/// How many rails are on and have this rail as their supply.
fn votes(board: &Board, plain: &Plain, id: RailId) -> u64
    requires valid { IsValid board.now }
    requires inv { Inv board.now plain.now }
    ensures value { result ≡ votes board.now plain.now id.0 }
    ensures bound { result ≤ length board.now.rails }
{
    let mut count = 0;
    for rail in board.rails.as_slice() {
        if rail.supply == Some(id) && rail.is_on(&plain.regs) {
            count += 1;
        }
    }
    count
}

/// The use count of a rail: its enables, its hold, and the votes of the rails that it supplies.
pub(crate) fn use_count(board: &Board, plain: &Plain, id: RailId) -> u64
    requires valid { IsValid board.now }
    requires inv { Inv board.now plain.now }
    requires few { length plain.now.handles < 2 ^ 32 }
    ensures { result ≡ use_count board.now plain.now id.0 }
{
    let held = plain.holds.get(usize::from(id.0)) == Some(&true);
    enables(plain, id) + u64::from(held) + votes(board, plain, id)
}
