ghost use Rattle.std.specs.Prelude.{◌≡◌, ◌++◌, ◌<◌, Bool, ℕ, false, All, IfOk, OnOk, length, map, slice_index, slice_index_or};
ghost use Rattle.std.specs.Option.{option_to_list};
ghost use Rattle.chip_regs.specs.Field.{FitsField, IsField};
ghost use Rattle.board.specs.declared.rail.Rail.{Rail};
ghost use Rattle.board.specs.Desc.{IsPlaced, IsSoundDesc};
ghost use Rattle.board.specs.Valid.{IsSoundBoard};
ghost use Rattle.plain_board.specs.Plan.{mode_number, table_selector};
ghost use Rattle.board_load.specs.Start.{start_mode, starts_on};
ghost use Rattle.board_load.specs.Inside.Puts.{changed_put, value_put, mode_put, on_put, value_and_mode_puts, on_puts, loading_puts, after_puts, write_of_put};

use board::{Board, Rail, Table, Write};
use chip_regs::{Bits, Field, Regs};
use item_list::Items;
use load_modes::{Mode, mode_for};
use std::alloc::{AllocError, Global};

/// A number for a field.
#[derive(Clone, Copy)]
pub(crate) struct Put {
    pub(crate) field: Field,
    pub(crate) bits: Bits,
}

/// All that loading puts: in the board's order each rail's selector and mode, and then in the same
/// order the on bits.
pub(crate) fn loading_puts(
    alloc: Global,
    board: &Board,
    regs: &Regs,
    values: &[u32],
    on: &[bool],
) -> Result<Items<Put>, AllocError>
    requires sound { IsSoundBoard board.now }
    requires chips { length regs.now ≡ board.now.chips }
    requires values { length values.now ≡ length board.now.rails }
    requires size { length on.now ≡ length board.now.rails }
    requires on { (r : ℕ) → slice_index_or on.now r false ≡ starts_on board.now regs.now r }
    ensures { IfOk result (λ puts. puts ≡ loading_puts board.now regs.now values.now) }
{
    let mut puts = Items::new(alloc);
    for r in board.order.as_slice() {
        push_value_and_mode(&mut puts, board, regs, values, *r)?;
    }
    for r in board.order.as_slice() {
        push_on(&mut puts, board, regs, on, *r)?;
    }
    Ok(puts)
}

/// One rail's selector and mode, behind other puts.
fn push_value_and_mode(
    puts: &mut Items<Put>,
    board: &Board,
    regs: &Regs,
    values: &[u32],
    r: u16,
) -> Result<(), AllocError>
    requires sound { IsSoundBoard board.now }
    requires chips { length regs.now ≡ board.now.chips }
    requires values { length values.now ≡ length board.now.rails }
    ensures { OnOk result (puts.new ≡ puts.old ++ value_and_mode_puts board.now regs.now values.now r) }
{
    let Some(rail) = board.rails.get(usize::from(r)) else {
        return Ok(());
    };
    push_some(puts, value_put(rail, regs, values[usize::from(r)]))?;
    push_some(puts, mode_put(rail, regs))
}

/// One rail's on bit, behind other puts.
fn push_on(
    puts: &mut Items<Put>,
    board: &Board,
    regs: &Regs,
    on: &[bool],
    r: u16,
) -> Result<(), AllocError>
    requires sound { IsSoundBoard board.now }
    requires chips { length regs.now ≡ board.now.chips }
    requires size { length on.now ≡ length board.now.rails }
    requires on { (i : ℕ) → slice_index_or on.now i false ≡ starts_on board.now regs.now i }
    ensures { OnOk result (puts.new ≡ puts.old ++ on_puts board.now regs.now r) }
{
    let Some(rail) = board.rails.get(usize::from(r)) else {
        return Ok(());
    };
    push_some(puts, on_put(rail, regs, on[usize::from(r)]))
}

fn push_some(puts: &mut Items<Put>, put: Option<Put>) -> Result<(), AllocError>
    ensures { OnOk result (puts.new ≡ puts.old ++ option_to_list put) }
{
    match put {
        Some(put) => puts.push(put),
        None => Ok(()),
    }
}

/// The selector of the rail's value, where it doesn't stand there.
fn value_put(rail: &Rail, regs: &Regs, target: u32) -> Option<Put>
    requires { IsSoundDesc (length regs.now) rail.now.desc }
    ensures { result ≡ value_put regs.now target rail.now }
{
    if rail.uv(regs) == target {
        return None;
    }
    let field = rail.desc.selector?;
    let selector = selector_of(&rail.desc.table, target)?;
    changed_put(regs, &field, selector as u8)
}

/// The first selector of a value.
fn selector_of(table: &Table, uv: u32) -> Option<u16>
    ensures { (rail : Rail) → rail.desc.table ≡ table.now → result ≡ table_selector rail uv }
{
    let pick = table.selector_high(uv)?;
    (pick.uv == uv).then_some(pick.sel)
}

/// The number of the rail's mode, where it isn't in it.
fn mode_put(rail: &Rail, regs: &Regs) -> Option<Put>
    requires { IsSoundDesc (length regs.now) rail.now.desc }
    ensures { result ≡ mode_put regs.now rail.now }
{
    let field = rail.desc.modes?;
    let mode = start_mode(rail)?;
    changed_put(regs, &field, mode_number(mode))
}

/// The rail's on bit, where it is to be on and isn't.
fn on_put(rail: &Rail, regs: &Regs, on: bool) -> Option<Put>
    requires { IsSoundDesc (length regs.now) rail.now.desc }
    ensures { result ≡ on_put regs.now on rail.now }
{
    if on {
        changed_put(regs, &rail.desc.enable, 1)
    } else {
        None
    }
}

/// A number for a field, where it holds another.
fn changed_put(regs: &Regs, field: &Field, bits: Bits) -> Option<Put>
    requires { IsPlaced (length regs.now) field.now }
    ensures { result ≡ changed_put regs.now field.now bits }
{
    if regs.get(field) == bits {
        None
    } else {
        Some(Put {
            field: *field,
            bits,
        })
    }
}

/// The mode that a rail starts in: where loads choose it, the one for the load that no consumer tells.
fn start_mode(rail: &Rail) -> Option<Mode>
    ensures { result ≡ start_mode rail.now }
{
    if rail.limits.allow_load && rail.desc.modes.is_some() {
        let load = u64::from(rail.limits.system_load);
        mode_for(&rail.desc.greatest, rail.limits.allowed, load)
    } else {
        rail.limits.initial
    }
}

/// The number of a mode in a mode field.
fn mode_number(mode: Mode) -> Bits
    ensures { result ≡ mode_number mode }
{
    match mode {
        Mode::Fast => 0,
        Mode::Normal => 1,
        Mode::Idle => 2,
        Mode::Standby => 3,
    }
}

/// Puts them into the registers.
pub(crate) fn apply(regs: &mut Regs, puts: &[Put])
    requires placed { All (λ put. IsPlaced (length regs.old) put.field) puts.now }
    requires room { All (λ put. FitsField put.field put.bits) puts.now }
    ensures { regs.new ≡ after_puts regs.old puts.now }
{
    for put in puts {
        regs.put(&put.field, put.bits);
    }
}

/// Each as a masked update.
pub(crate) fn writes_of(alloc: Global, puts: &[Put]) -> Result<Items<Write>, AllocError>
    requires room { All (λ put. FitsField put.field put.bits) puts.now }
    requires shape { All (λ put. IsField put.field) puts.now }
    ensures { IfOk result (λ writes. writes ≡ map write_of_put puts.now) }
{
    let mut writes = Vec::with_capacity(alloc, puts.len())?;
    for put in puts {
        writes.push(write_of(put))?;
    }
    Ok(Items::from_vec(writes))
}

fn write_of(put: &Put) -> Write
    requires room { FitsField put.now.field put.now.bits }
    requires shape { IsField put.now.field }
    ensures { result ≡ write_of_put put.now }
{
    Write {
        chip: put.field.chip,
        reg: put.field.reg,
        mask: put.field.mask,
        bits: put.bits << put.field.shift,
    }
}
