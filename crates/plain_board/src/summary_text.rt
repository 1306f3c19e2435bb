ghost use Rattle.std.specs.Prelude.{◌≡◌, ◌<◌, ◌^◌, ◌++◌, ◌∷◌, [], length, slice_get, codes, decimal, flat_map, IfOk, OnOk, OnErr, string_bytes};
ghost use Rattle.std.specs.List.{enumerate_from};
ghost use Rattle.board.specs.Valid.{IsValid};
ghost use Rattle.plain_board.specs.Inv.{Inv};
ghost use Rattle.rows.specs.Words.{ended, spaced};
ghost use Rattle.plain_board.specs.Text.{rail_text, summary_text};

use crate::counts::{enables, use_count};
use crate::plain::Plain;
use board::{Board, Rail, RailId};
use rows::{mode_text, on_text};
use std::alloc::{AllocError, Global};

/// The line of a rail.
fn rail_text(
    alloc: Global,
    board: &Board,
    plain: &Plain,
    id: RailId,
    rail: &Rail,
) -> Result<String, AllocError>
    requires valid { IsValid board.now }
    requires inv { Inv board.now plain.now }
    requires few { length plain.now.handles < 2 ^ 32 }
    requires place { slice_get board.now.rails id.0 ≡ Some rail.now }
    ensures { IfOk result (λ text. string_bytes text ≡ rail_text board.now plain.now (id.0, rail.now)) }
{
    let name = &rail.name;
    let state = on_text(rail.is_on(&plain.regs));
    let uv = rail.uv(&plain.regs);
    let mode = mode_text(rail.mode(&plain.regs));
    let used = use_count(board, plain, id);
    let enabled = enables(plain, id);
    format!(in alloc; "rail {name} {state} {uv} {mode} use {used} enables {enabled}\n")
}

/// The lines of all rails, in their order.
fn rails_text(alloc: Global, board: &Board, plain: &Plain) -> Result<String, AllocError>
    requires valid { IsValid board.now }
    requires inv { Inv board.now plain.now }
    requires few { length plain.now.handles < 2 ^ 32 }
    ensures { IfOk result (λ text. string_bytes text ≡ flat_map (rail_text board.now plain.now) (enumerate_from 0 board.now.rails)) }
{
    let mut text = String::new(alloc);
    let mut id = 0;
    for rail in board.rails.as_slice() {
        let line = rail_text(alloc, board, plain, RailId(id), rail)?;
        text.push_str(line.as_str())?;
        id += 1;
    }
    Ok(text)
}

/// The last line.
fn done_text(alloc: Global, workers: u16, rows: u32) -> Result<String, AllocError>
    ensures { IfOk result (λ text. string_bytes text ≡ ended (spaced (codes "done" ∷ decimal workers ∷ decimal rows ∷ []))) }
{
    format!(in alloc; "done {workers} {rows}\n")
}

/// Appends where each rail stands, with its counts, and how many workers and rows there were.
/// On want of memory `out` is as before.
pub fn summary(
    alloc: Global,
    board: &Board,
    plain: &Plain,
    workers: u16,
    rows: u32,
    out: &mut Vec<u8>,
) -> Result<(), AllocError>
    requires valid { IsValid board.now }
    requires inv { Inv board.now plain.now }
    requires few { length plain.now.handles < 2 ^ 32 }
    ensures ok { OnOk result (out.new.items ≡ out.old.items ++ summary_text board.now plain.now workers rows) }
    ensures err { OnErr result (out.new.items ≡ out.old.items) }
{
    let mut text = rails_text(alloc, board, plain)?;
    let last = done_text(alloc, workers, rows)?;
    text.push_str(last.as_str())?;
    out.extend_from_slice(text.as_bytes())
}
