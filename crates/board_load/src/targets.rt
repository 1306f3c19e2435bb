ghost use Rattle.std.specs.Prelude.{◌≡◌, ℕ, nat_le, map, filter, length, Some, All, IfOk};
ghost use Rattle.board.specs.Desc.{ArePlaced};
ghost use Rattle.board.specs.Rail.{is_within, least};
ghost use Rattle.board.specs.Table.{values_of};
ghost use Rattle.board.specs.Valid.{IsSoundBoard};
ghost use Rattle.board_load.specs.Loading.{HasValueInside};
ghost use Rattle.board_load.specs.Start.{greatest};
ghost use Rattle.board_load.specs.Inside.Targets.{start_of};

use board::{Board, Rail, Table};
use chip_regs::Regs;
use item_list::Items;
use std::alloc::{AllocError, Global};

/// Where each rail is to stand.
pub(crate) fn targets_of(
    alloc: Global,
    board: &Board,
    regs: &Regs,
) -> Result<Items<u32>, AllocError>
    requires sound { IsSoundBoard board.now }
    requires inside { All HasValueInside board.now.rails }
    requires chips { length regs.now ≡ board.now.chips }
    ensures { IfOk result (λ values. values ≡ map (start_of regs.now) board.now.rails) }
{
    let mut values = Vec::with_capacity(alloc, board.rails.len())?;
    for rail in board.rails.as_slice() {
        values.push(start_of(rail, regs))?;
    }
    Ok(Items::from_vec(values))
}

/// The least of a rail's values that isn't below its floor. A rail without bounds stays where it is.
fn start_of(rail: &Rail, regs: &Regs) -> u32
    requires placed { ArePlaced (length regs.now) rail.now.desc }
    requires inside { HasValueInside rail.now }
    ensures { result ≡ start_of regs.now rail.now }
{
    let found = rail.uv(regs);
    let Some((low, high)) = rail.limits.bounds else {
        return found;
    };
    let floor = if rail.is_on(regs) {
        greatest_within(&rail.desc.table, low, high, found)
    } else {
        None
    };
    match floor {
        Some(uv) => uv,
        None => least_within(&rail.desc.table, low, high).unwrap_or(0),
    }
}

/// The greatest value of a table within `low..=high` µV that isn't above `most`.
fn greatest_within(table: &Table, low: u32, high: u32, most: u32) -> Option<u32>
    ensures { result ≡ greatest (filter (λ uv. nat_le uv most) (filter (is_within (Some (low, high))) (map (λ pair. pair.1) (values_of table.now)))) }
{
    let pick = table.selector_low(most.min(high))?;
    (pick.uv >= low).then_some(pick.uv)
}

/// The least value of a table within `low..=high` µV.
fn least_within(table: &Table, low: u32, high: u32) -> Option<u32>
    ensures { result ≡ least (filter (is_within (Some (low, high))) (map (λ pair. pair.1) (values_of table.now))) }
{
    let pick = table.selector_high(low)?;
    (pick.uv <= high).then_some(pick.uv)
}
