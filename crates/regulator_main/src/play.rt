ghost use Rattle.std.specs.Prelude.{ℕ, ◌≡◌, ◌++◌, ◌<◌, ◌^◌, List, [], All, IfOk, IfErr, OnOk, flat_map, length};
ghost use Rattle.board.specs.Valid.{IsValid};
ghost use Rattle.rows.specs.declared.row.Row.{Row as TheRow};
ghost use Rattle.rows.specs.Row.{row_text, NamesRail, HasRails};
ghost use Rattle.plain_board.specs.History.{replay};
ghost use Rattle.plain_board.specs.Inv.{Inv};
ghost use Rattle.plain_board.specs.Text.{summary_text, printed};
ghost use Rattle.session.specs.Session.{ArePlayable};
ghost use Rattle.regulator_main.specs.Bringing.{BringsUp, StopsLoad};
ghost use Rattle.regulator_main.specs.Playing.{PlaysAll};
ghost use Rattle.regulator_main.specs.Runs.{Runs, text_of};
ghost use Rattle.regulator_main.specs.Wires.{wires_of};

use crate::numbers::numbers_of;
use crate::worker::play_worker;
use board::Board;
use board_load::{Loaded, bring_up};
use item_list::Items;
use plain_board::{Plain, summary};
use reg_outside::{Lab, Planned};
use rows::{Call, Row};
use session::Session;
use std::alloc::{AllocError, Global};

/// Why a session was not run to its end.
#[derive(Clone, Copy)]
pub(crate) enum PlayFault {
    /// There was no memory for it.
    Memory,
    /// The bus refused an update of the load, to this register.
    Load { chip: u8, reg: u8 },
}

impl From<AllocError> for PlayFault {
    ghost use Rattle.std.specs.Prelude.{◌≡◌};
    ghost use Rattle.regulator_main.specs.declared.play.PlayFault.TheVariants.{Memory};

    ghost from_gives = { λ _ fault. fault ≡ Memory };

    fn from(_e: AllocError) -> PlayFault {
        PlayFault::Memory
    }
}

/// Makes the writes of the load on the wire 0 of the lab, and hands it back. It stops at the first
/// update that is refused, by the plan or by the wire.
fn load<L: Lab>(
    alloc: Global,
    loaded: &Loaded,
    refusals: &[(u16, u32)],
    lab: &mut L,
) -> Result<(), PlayFault>
    ensures loads { OnOk result (BringsUp loaded.now.writes refusals.now (wires_of (L.faults lab.old) (L.list lab.old)) (wires_of (L.faults lab.new) (L.list lab.new))) }
    ensures stopped { IfErr result (λ fault. (chip reg : ℕ) → fault ≡ PlayFault.Load chip reg → StopsLoad loaded.now.writes refusals.now chip reg (wires_of (L.faults lab.old) (L.list lab.old)) (wires_of (L.faults lab.new) (L.list lab.new))) }
{
    let numbers = numbers_of(alloc, refusals, 0)?;
    let mut wire = Planned::new(lab.wire(0), numbers);
    let made = bring_up(loaded, &mut wire);
    lab.back(0, wire.into_inner());
    match made {
        Ok(()) => Ok(()),
        Err(stop) => Err(PlayFault::Load {
            chip: stop.chip,
            reg: stop.reg,
        }),
    }
}

/// Runs the scripts one after another, the first as that of worker 1.
fn play_scripts<L: Lab>(
    alloc: Global,
    board: &Board,
    plain: &mut Plain,
    refusals: &[(u16, u32)],
    scripts: &[Items<Call>],
    lab: &mut L,
) -> Result<Vec<Row>, AllocError>
    requires valid { IsValid board.now }
    requires inv { Inv board.now plain.old }
    requires none_yet { plain.old.handles ≡ [] }
    requires playable { ArePlayable board.now scripts.now }
    ensures plays { IfOk result (λ rows. PlaysAll board.now plain.old refusals.now scripts.now rows.items (wires_of (L.faults lab.old) (L.list lab.old)) (wires_of (L.faults lab.new) (L.list lab.new))) }
    ensures calls { IfOk result (λ rows. All (λ row. NamesRail board.now row.call) rows.items) }
    ensures answers { IfOk result (λ rows. All (λ row. HasRails board.now row.answer) rows.items) }
    ensures few { IfOk result (λ rows. length rows.items < 2 ^ 32) }
    ensures replayed { IfOk result (λ rows. plain.new ≡ replay board.now plain.old rows.items) }
    ensures inv { OnOk result (Inv board.now plain.new) }
    ensures handles { OnOk result (length plain.new.handles < 2 ^ 32) }
{
    let mut rows = Vec::new(alloc);
    let mut worker = 0;
    for script in scripts {
        worker += 1;
        let calls = script.as_slice();
        let mut more = play_worker(alloc, board, plain, lab, refusals, worker, calls)?;
        rows.append(&mut more)?;
    }
    Ok(rows)
}

/// The lines of rows, in order.
fn rows_text(alloc: Global, board: &Board, rows: &[Row]) -> Result<Vec<u8>, AllocError>
    requires calls { All (λ row. NamesRail board.now row.call) rows.now }
    requires answers { All (λ row. HasRails board.now row.answer) rows.now }
    ensures { IfOk result (λ text. text.items ≡ flat_map (row_text board.now) rows.now) }
{
    let mut text = Vec::new(alloc);
    for row in rows {
        row.text(alloc, board, &mut text)?;
    }
    Ok(text)
}

/// The text of a history: the lines of its rows, and the summary of the board after them.
fn history_text(
    alloc: Global,
    board: &Board,
    plain: &Plain,
    workers: u16,
    rows: &[Row],
) -> Result<Vec<u8>, AllocError>
    requires valid { IsValid board.now }
    requires inv { Inv board.now plain.now }
    requires handles { length plain.now.handles < 2 ^ 32 }
    requires few { length rows.now < 2 ^ 32 }
    requires calls { All (λ row. NamesRail board.now row.call) rows.now }
    requires answers { All (λ row. HasRails board.now row.answer) rows.now }
    ensures { IfOk result (λ text. text.items ≡ flat_map (row_text board.now) rows.now ++ summary_text board.now plain.now workers (length rows.now)) }
{
    let mut text = rows_text(alloc, board, rows)?;
    summary(alloc, board, plain, workers, rows.len() as u32, &mut text)?;
    Ok(text)
}

/// The text of a run of the scripts from a plain board on: its rows, and the summary.
fn play_on<L: Lab>(
    alloc: Global,
    board: &Board,
    plain: &mut Plain,
    refusals: &[(u16, u32)],
    scripts: &[Items<Call>],
    lab: &mut L,
) -> Result<Vec<u8>, AllocError>
    requires valid { IsValid board.now }
    requires inv { Inv board.now plain.old }
    requires none_yet { plain.old.handles ≡ [] }
    requires playable { ArePlayable board.now scripts.now }
    ensures { IfOk result (λ text. (rows : List TheRow) × PlaysAll board.now plain.old refusals.now scripts.now rows (wires_of (L.faults lab.old) (L.list lab.old)) (wires_of (L.faults lab.new) (L.list lab.new)) × (text.items ≡ printed board.now plain.old rows (length scripts.now))) }
{
    let rows = play_scripts(alloc, board, plain, refusals, scripts, lab)?;
    history_text(alloc, board, plain, scripts.len() as u16, rows.as_slice())
}

/// Loads the board of a session through the lab, runs its scripts one after another, and gives the text of
/// that: the rows, and the summary.
pub(crate) fn play<L: Lab>(
    alloc: Global,
    mut session: Session,
    lab: &mut L,
) -> Result<Vec<u8>, PlayFault>
    requires valid { IsValid session.loaded.board }
    requires inv { Inv session.loaded.board session.loaded.plain }
    requires none_yet { session.loaded.plain.handles ≡ [] }
    requires playable { ArePlayable session.loaded.board session.scripts }
    ensures ran { IfOk result (λ text. (rows : List TheRow) × Runs session rows (wires_of (L.faults lab.old) (L.list lab.old)) (wires_of (L.faults lab.new) (L.list lab.new)) × (text.items ≡ text_of session rows)) }
    ensures stopped { IfErr result (λ fault. (chip reg : ℕ) → fault ≡ PlayFault.Load chip reg → StopsLoad session.loaded.writes session.refusals chip reg (wires_of (L.faults lab.old) (L.list lab.old)) (wires_of (L.faults lab.new) (L.list lab.new))) }
{
    load(alloc, &session.loaded, session.refusals.as_slice(), lab)?;
    let text = play_on(
        alloc,
        &session.loaded.board,
        &mut session.loaded.plain,
        session.refusals.as_slice(),
        session.scripts.as_slice(),
        lab,
    )?;
    Ok(text)
}
