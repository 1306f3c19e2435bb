ghost use Rattle.std.specs.Prelude.{◌≡◌, ◌≤◌, ◌+◌, ◌<◌, ◌^◌, ◌≢◌, [], length, IfOk, OnOk, All};
ghost use Rattle.board.specs.Lone.{IsLone};
ghost use Rattle.board.specs.Valid.{IsValid};
ghost use Rattle.rows.specs.Row.{NamesRail};
ghost use Rattle.plain_board.specs.History.{replay};
ghost use Rattle.plain_board.specs.Inv.{Inv};
ghost use Rattle.plain_board.specs.Untied.{IsBuiltCall};
ghost use Rattle.plain_board.specs.Stops.{tries_of};
ghost use Rattle.regulator_main.specs.Inside.Script.{PlaysScript, StaysInStep};

use crate::desk::perform;
use board::Board;
use item_list::Items;
use plain_board::Plain;
use reg_outside::Wire;
use rows::{Call, Row};
use std::alloc::{AllocError, Global};

/// Runs a worker's script from its first line to its last, and gives its rows.
pub(crate) fn run_script<W: Wire>(
    alloc: Global,
    board: &Board,
    plain: &mut Plain,
    wire: &mut W,
    worker: u16,
    script: &[Call],
) -> Result<Vec<Row>, AllocError>
    requires valid { IsValid board.now }
    requires lone { script.now ≢ [] → IsLone board.now }
    requires inv { Inv board.now plain.old }
    requires rails { All (NamesRail board.now) script.now }
    requires built { All IsBuiltCall script.now }
    requires short { length plain.old.handles + length script.now < 2 ^ 32 }
    requires numbered { length script.now ≤ 4096 }
    ensures plays { IfOk result (λ rows. PlaysScript board.now plain.old worker script.now rows.items (W.accepted wire.old) (W.accepted wire.new) (W.faults wire.old) (W.faults wire.new)) }
    ensures in_step { IfOk result (λ rows. StaysInStep (tries_of board.now plain.old worker rows.items) (W.plan wire.old) (W.plan wire.new)) }
    ensures replayed { IfOk result (λ rows. plain.new ≡ replay board.now plain.old rows.items) }
    ensures inv { OnOk result (Inv board.now plain.new) }
    ensures handles { OnOk result (length plain.new.handles ≤ length plain.old.handles + length script.now) }
{
    let mut rows = Vec::with_capacity(alloc, script.len())?;
    let mut line = 0;
    for call in script {
        line += 1;
        let answer = perform(alloc, board, plain, wire, worker, call)?;
        rows.push(Row {
            worker,
            line,
            call: *call,
            answer,
            writes: Items::new(alloc),
        })?;
    }
    Ok(rows)
}
