ghost use Rattle.std.specs.Prelude.{◌≡◌, ◌≢◌, ◌<◌, ◌≤◌, ◌==◌, ◌*◌, ◌^◌, [], ◌∷◌, Ok, Err, Some, true, find, length, take, slice_get, OnOk, OnErr, IfErr};
ghost use Rattle.reg_outside.specs.Count.{Rose};
ghost use Rattle.reg_outside.specs.Told.{with_more};
ghost use Rattle.linear_range.specs.Pick.{pair_of};
ghost use Rattle.chip_regs.specs.Field.{IsField, FitsField};
ghost use Rattle.chip_regs.specs.Registers.{HasChip, field_of, with_field};
ghost use Rattle.std.specs.Int.{abs_diff};
ghost use Rattle.board.specs.Table.{uv_of};
ghost use Rattle.board.specs.Rail.{allowed, choices, uv, IsAllowed};
ghost use Rattle.board.specs.Valid.{IsSoundRail};
ghost use Rattle.regulator_main.specs.Inside.Way.{way, moves_to};
ghost use Rattle.regulator_main.specs.Walk.{Makes, Tried, all_made, stopped_after};

use board::{Board, Rail, RailId};
use chip_regs::{Bits, Field, Regs};
use linear_range::Pick;
use reg_outside::{Failed, Wire};

/// The next allowed value above `from` on the way up to the target.
fn above(rail: &Rail, from: u32, target: u32) -> Pick
    requires rising { from < target }
    requires allowed { IsAllowed rail.now target }
    ensures next { way (allowed rail.now) from target ≡ result.uv ∷ way (allowed rail.now) result.uv target }
    ensures first { find (λ pair. pair.1 == result.uv) (choices rail.now) ≡ Some (pair_of result) }
    ensures value { rail.now.changeable ≡ true → uv_of rail.now.desc.table result.sel ≡ Some result.uv }
    ensures nearer { from < result.uv }
    ensures not_past { result.uv ≤ target }
{
    rail.at_or_above(from + 1).unwrap()
}

/// The next allowed value below `from` on the way down to the target.
fn below(rail: &Rail, from: u32, target: u32) -> Pick
    requires falling { target < from }
    requires allowed { IsAllowed rail.now target }
    ensures next { way (allowed rail.now) from target ≡ result.uv ∷ way (allowed rail.now) result.uv target }
    ensures first { find (λ pair. pair.1 == result.uv) (choices rail.now) ≡ Some (pair_of result) }
    ensures value { rail.now.changeable ≡ true → uv_of rail.now.desc.table result.sel ≡ Some result.uv }
    ensures nearer { result.uv < from }
    ensures not_past { target ≤ result.uv }
{
    rail.at_or_below(from - 1).unwrap()
}

/// The next allowed value on the way to the target.
fn toward(rail: &Rail, from: u32, target: u32) -> Pick
    requires apart { from ≢ target }
    requires allowed { IsAllowed rail.now target }
    ensures next { way (allowed rail.now) from target ≡ result.uv ∷ way (allowed rail.now) result.uv target }
    ensures first { find (λ pair. pair.1 == result.uv) (choices rail.now) ≡ Some (pair_of result) }
    ensures value { rail.now.changeable ≡ true → uv_of rail.now.desc.table result.sel ≡ Some result.uv }
    ensures nearer { abs_diff result.uv target < abs_diff from target }
{
    if from < target {
        above(rail, from, target)
    } else {
        below(rail, from, target)
    }
}

/// Puts a number into a field: first on the wire and, where that takes it, in the registers.
fn write_field<W: Wire>(
    field: &Field,
    bits: Bits,
    regs: &mut Regs,
    wire: &mut W,
) -> Result<(), Failed>
    requires field { IsField field.now }
    requires chip { HasChip regs.old field.now.chip }
    requires fits { FitsField field.now bits }
    ensures registers { OnOk result (regs.new ≡ with_field regs.old field.now bits) }
    ensures reads { OnOk result (field_of regs.new field.now ≡ bits) }
    ensures told { OnOk result (W.accepted wire.new ≡ with_more (W.accepted wire.old) ((field.now.chip, field.now.reg, field.now.mask, bits * 2 ^ field.now.shift) ∷ [])) }
    ensures counted { OnOk result (W.faults wire.new ≡ W.faults wire.old) }
    ensures same_registers { OnErr result (regs.new ≡ regs.old) }
    ensures not_told { OnErr result (W.accepted wire.new ≡ W.accepted wire.old) }
    ensures fault { OnErr result (Rose (W.faults wire.old) (W.faults wire.new)) }
    ensures tried { OnOk result (Tried (all_made 1) (W.plan wire.old) (W.plan wire.new)) }
    ensures tried_in_vain { OnErr result (Tried (stopped_after 0) (W.plan wire.old) (W.plan wire.new)) }
    ensures chips { length regs.new ≡ length regs.old }
{
    wire.update(field.chip, field.reg, field.mask, bits << field.shift)?;
    regs.put(field, bits);
    Ok(())
}

/// Moves a rail to a value, by one update of its selector for each value on the way. Stops at the
/// first update that the wire refuses, and says how many it took.
pub(crate) fn walk<W: Wire>(
    board: &Board,
    id: RailId,
    rail: &Rail,
    field: Field,
    regs: &mut Regs,
    wire: &mut W,
    target: u32,
) -> Result<(), u32>
    requires place { slice_get board.now.rails id.0 ≡ Some rail.now }
    requires selector { rail.now.desc.selector ≡ Some field }
    requires sound { IsSoundRail (length regs.old) rail.now }
    requires changeable { rail.now.changeable ≡ true }
    requires allowed { IsAllowed rail.now target }
    ensures there { OnOk result (Makes board.now (moves_to id rail.now (uv rail.now regs.old) target) regs.old regs.new (W.accepted wire.old) (W.accepted wire.new)) }
    ensures counted { OnOk result (W.faults wire.new ≡ W.faults wire.old) }
    ensures before_the_end { IfErr result (λ made. made < length (moves_to id rail.now (uv rail.now regs.old) target)) }
    ensures stopped { IfErr result (λ made. Makes board.now (take made (moves_to id rail.now (uv rail.now regs.old) target)) regs.old regs.new (W.accepted wire.old) (W.accepted wire.new)) }
    ensures fault { OnErr result (Rose (W.faults wire.old) (W.faults wire.new)) }
    ensures tried { OnOk result (Tried (all_made (length (moves_to id rail.now (uv rail.now regs.old) target))) (W.plan wire.old) (W.plan wire.new)) }
    ensures tried_in_vain { IfErr result (λ made. Tried (stopped_after made) (W.plan wire.old) (W.plan wire.new)) }
    ensures chips { length regs.new ≡ length regs.old }
{
    let mut at = rail.uv(regs);
    let mut made = 0;
    while at != target {
        let pick = toward(rail, at, target);
        let Ok(()) = write_field(&field, pick.sel as Bits, regs, wire) else {
            return Err(made);
        };
        at = pick.uv;
        made += 1;
    }
    Ok(())
}

/// Moves a rail that stands at an allowed value to another one, if it isn't there.
pub(crate) fn settle<W: Wire>(
    board: &Board,
    id: RailId,
    rail: &Rail,
    regs: &mut Regs,
    wire: &mut W,
    target: u32,
) -> Result<(), (Field, u32)>
    requires place { slice_get board.now.rails id.0 ≡ Some rail.now }
    requires sound { IsSoundRail (length regs.old) rail.now }
    requires allowed { IsAllowed rail.now target }
    requires lawful { IsAllowed rail.now (uv rail.now regs.old) }
    ensures there { OnOk result (Makes board.now (moves_to id rail.now (uv rail.now regs.old) target) regs.old regs.new (W.accepted wire.old) (W.accepted wire.new)) }
    ensures counted { OnOk result (W.faults wire.new ≡ W.faults wire.old) }
    ensures selector { IfErr result (λ stop. rail.now.desc.selector ≡ Some stop.0) }
    ensures before_the_end { IfErr result (λ stop. stop.1 < length (moves_to id rail.now (uv rail.now regs.old) target)) }
    ensures stopped { IfErr result (λ stop. Makes board.now (take stop.1 (moves_to id rail.now (uv rail.now regs.old) target)) regs.old regs.new (W.accepted wire.old) (W.accepted wire.new)) }
    ensures fault { OnErr result (Rose (W.faults wire.old) (W.faults wire.new)) }
    ensures tried { OnOk result (Tried (all_made (length (moves_to id rail.now (uv rail.now regs.old) target))) (W.plan wire.old) (W.plan wire.new)) }
    ensures tried_in_vain { IfErr result (λ stop. Tried (stopped_after stop.1) (W.plan wire.old) (W.plan wire.new)) }
    ensures chips { length regs.new ≡ length regs.old }
{
    if rail.uv(regs) == target {
        return Ok(());
    }
    let Some(field) = rail.desc.selector else {
        unreachable!()
    };
    match walk(board, id, rail, field, regs, wire, target) {
        Ok(()) => Ok(()),
        Err(made) => Err((field, made)),
    }
}
