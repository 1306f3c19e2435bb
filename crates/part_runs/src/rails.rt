use crate::node::push_bytes;
use board::{Board, Rail, RailId};
use board_draft::{BoardFault, draft};
use dts_tree::Tree;
use std::alloc::{AllocError, Global};

/// Appends a line for each rail of the board that a tree makes, or why it makes none.
pub(crate) fn write_board(alloc: Global, line: &mut String, tree: &Tree) -> Result<(), AllocError> {
    match draft(alloc, tree) {
        Ok(draft) => write_rails(line, &draft.board),
        Err(BoardFault::Memory) => Err(AllocError),
        Err(fault) => write_refusal(alloc, line, &fault),
    }
}

fn write_refusal(alloc: Global, line: &mut String, fault: &BoardFault) -> Result<(), AllocError> {
    let mut text = Vec::new(alloc);
    fault.text(alloc, &mut text)?;
    push_bytes(line, text.as_slice())
}

fn write_rails(line: &mut String, board: &Board) -> Result<(), AllocError> {
    for (number, rail) in board.rails.as_slice().iter().enumerate() {
        write_rail(line, number, rail)?;
    }
    Ok(())
}

/// Appends a rail as its number, its name, its chip, its supply, its group, its bounds, and the one value that
/// it has if it can't change.
fn write_rail(line: &mut String, number: usize, rail: &Rail) -> Result<(), AllocError> {
    let name = rail.name.as_str();
    let chip = rail.desc.enable.chip;
    let group = rail.group;
    write!(line, "{number} {name} chip {chip} ")?;
    match rail.supply {
        Some(RailId(supply)) => write!(line, "supply {supply} ")?,
        None => line.push_str("supply none ")?,
    }
    write!(line, "group {group} ")?;
    match rail.limits.bounds {
        Some((least, greatest)) => write!(line, "bounds {least} {greatest} ")?,
        None => line.push_str("bounds none ")?,
    }
    write_kept(line, rail)
}

fn write_kept(line: &mut String, rail: &Rail) -> Result<(), AllocError> {
    if rail.changeable {
        return line.push_str("changeable\n");
    }
    let kept = rail.kept_uv;
    write!(line, "kept {kept}\n")
}
