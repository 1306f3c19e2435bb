ghost use Rattle.std.specs.Prelude.{◌≡◌, ℕ, ◌==◌, ◌||◌, ◌<◌, false, length, map, slice_index, slice_index_or, IfOk, OnOk};
ghost use Rattle.board_graph.specs.Graph.{count_of, IsGraph};
ghost use Rattle.board_graph.specs.Loops.{is_above};
ghost use Rattle.board_graph.specs.Order.{is_taken};
ghost use Rattle.board.specs.Desc.{ArePlaced};
ghost use Rattle.board.specs.Valid.{IsSoundBoard};
ghost use Rattle.board_load.specs.Start.{is_asked_on, starts_on};

use board::{Board, Rail};
use board_graph::Graph;
use chip_regs::Regs;
use item_list::Items;
use std::alloc::{AllocError, Global};

/// Whether a rail is to be on, and is held so.
fn is_asked_on(rail: &Rail, regs: &Regs) -> bool
    requires { ArePlaced (length regs.now) rail.now.desc }
    ensures { result ≡ is_asked_on regs.now rail.now }
{
    rail.is_on(regs) || rail.limits.always_on || rail.limits.boot_on
}

/// Of each rail whether it is held on.
pub(crate) fn holds_of(alloc: Global, board: &Board, regs: &Regs) -> Result<Items<bool>, AllocError>
    requires sound { IsSoundBoard board.now }
    requires chips { length regs.now ≡ board.now.chips }
    ensures { IfOk result (λ holds. holds ≡ map (is_asked_on regs.now) board.now.rails) }
{
    let mut holds = Vec::with_capacity(alloc, board.rails.len())?;
    for rail in board.rails.as_slice() {
        holds.push(is_asked_on(rail, regs))?;
    }
    Ok(Items::from_vec(holds))
}

/// Of each rail whether it is on after loading: those that are to be, and all above them.
pub(crate) fn on_of(alloc: Global, board: &Board, regs: &Regs) -> Result<Items<bool>, AllocError>
    requires sound { IsSoundBoard board.now }
    requires chips { length regs.now ≡ board.now.chips }
    ensures size { IfOk result (λ on. length on ≡ length board.now.rails) }
    ensures on { IfOk result (λ on. (r : ℕ) → slice_index_or on r false ≡ starts_on board.now regs.now r) }
{
    let mut on = Items::from_vec(vec![in alloc; false; board.rails.len()]?);
    for (r, rail) in board.rails.as_slice().iter().enumerate() {
        if is_asked_on(rail, regs) {
            mark_up(alloc, &board.graph, r as u16, &mut on)?;
        }
    }
    Ok(on)
}

/// Marks a rail and all supplies above it.
fn mark_up(alloc: Global, graph: &Graph, r: u16, marks: &mut Items<bool>) -> Result<(), AllocError>
    requires graph { IsGraph graph.now }
    requires rail { r < count_of graph.now }
    requires size { length marks.old ≡ count_of graph.now }
    ensures size { OnOk result (length marks.new ≡ length marks.old) }
    ensures marks { OnOk result ((i : ℕ) → slice_index_or marks.new i false ≡ (slice_index_or marks.old i false || (r == i || is_above graph.now i r))) }
{
    let above = graph.above(alloc, r)?;
    marks.set(usize::from(r), true);
    mark_all(marks, above.as_slice());
    Ok(())
}

/// Marks these numbers.
fn mark_all(marks: &mut Items<bool>, numbers: &[u16])
    requires { (i : ℕ) → i < length numbers.now → slice_index numbers.now i < length marks.old }
    ensures size { length marks.new ≡ length marks.old }
    ensures marks { (i : ℕ) → slice_index_or marks.new i false ≡ (slice_index_or marks.old i false || is_taken numbers.now i) }
{
    for number in numbers {
        marks.set(usize::from(*number), true);
    }
}
