ghost use Rattle.std.specs.Prelude.{◌≡◌, ◌≢◌, ◌+◌, ◌<◌, ◌≤◌, ◌^◌, [], All, IfOk, OnOk, length};
ghost use Rattle.board.specs.Lone.{IsLone};
ghost use Rattle.board.specs.Valid.{IsValid};
ghost use Rattle.rows.specs.Row.{NamesRail, HasRails};
ghost use Rattle.plain_board.specs.History.{replay};
ghost use Rattle.plain_board.specs.Inv.{Inv};
ghost use Rattle.plain_board.specs.Untied.{IsBuiltCall};
ghost use Rattle.regulator_main.specs.Playing.{PlaysWorker};

use crate::numbers::numbers_of;
use crate::script::run_script;
use board::Board;
use plain_board::Plain;
use reg_outside::{Lab, Planned};
use rows::{Call, Row};
use std::alloc::{AllocError, Global};

/// Runs a worker's script on the wire that the lab has for it, and hands the wire back. The updates of the
/// worker that the plan names are refused before they reach it.
pub(crate) fn play_worker<L: Lab>(
    alloc: Global,
    board: &Board,
    plain: &mut Plain,
    lab: &mut L,
    refusals: &[(u16, u32)],
    worker: u16,
    script: &[Call],
) -> Result<Vec<Row>, AllocError>
    requires valid { IsValid board.now }
    requires lone { script.now ≢ [] → IsLone board.now }
    requires inv { Inv board.now plain.old }
    requires rails { All (NamesRail board.now) script.now }
    requires built { All IsBuiltCall script.now }
    requires short { length plain.old.handles + length script.now < 2 ^ 32 }
    requires numbered { length script.now ≤ 4096 }
    ensures plays { IfOk result (λ rows. PlaysWorker board.now plain.old refusals.now worker script.now rows.items (record { counts = L.faults lab.old; lists = L.list lab.old }) (record { counts = L.faults lab.new; lists = L.list lab.new })) }
    ensures names { IfOk result (λ rows. All (λ row. NamesRail board.now row.call) rows.items) }
    ensures rails { IfOk result (λ rows. All (λ row. HasRails board.now row.answer) rows.items) }
    ensures replayed { IfOk result (λ rows. plain.new ≡ replay board.now plain.old rows.items) }
    ensures inv { OnOk result (Inv board.now plain.new) }
    ensures handles { OnOk result (length plain.new.handles ≤ length plain.old.handles + length script.now) }
{
    let numbers = numbers_of(alloc, refusals, worker)?;
    let mut wire = Planned::new(lab.wire(worker), numbers);
    let rows = run_script(alloc, board, plain, &mut wire, worker, script);
    lab.back(worker, wire.into_inner());
    rows
}
