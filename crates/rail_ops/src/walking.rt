ghost use Rattle.std.specs.Prelude.{◌≡◌, ◌≢◌, ◌<◌, ◌≤◌, ◌^◌, ◌∷◌, [], ℕ, List, Contains, Some, true, false, length, slice_get};
ghost use Rattle.std.specs.Int.{abs_diff};
ghost use Rattle.board.specs.declared.rail.Rail.{Rail as TheRail};
ghost use Rattle.board.specs.Rail.{allowed, uv, IsAllowed};
ghost use Rattle.board.specs.Table.{uv_of};
ghost use Rattle.board.specs.Valid.{IsSoundRail, IsValid};
ghost use Rattle.rail_law.specs.Moves.{selector_for};
ghost use Rattle.rail_law.specs.Way.{move_of};
ghost use Rattle.reg_outside.specs.Bus.{told_by};
ghost use Rattle.rail_state.specs.Sight.{IsGuarded, IsOwned};
ghost use Rattle.plain_board.specs.Untied.{IsUntied};
ghost use Rattle.plain_board.proofs.ValuesTo.{values_to};
ghost use Rattle.rail_ops.specs.Inside.Supplied.{HavePlaces};
ghost use Rattle.rail_ops.specs.Inside.Walking.{PutsSelector, SeesLawful, WentTo};
ghost use Rattle.rail_ops.specs.Sight.{ShowsSame, shown_by};
ghost use Rattle.rail_ops.specs.Taking.{Tells, updates_of};

use crate::looking::{rail_at, seen_uv};
use crate::switching::try_update;
use board::{Board, Part, Rail, RailId};
use chip_regs::Bits;
use linear_range::Pick;
use rail_state::Rails;
use reg_outside::Wire;

/// How far a rail came on its way: how many of its values it took, and whether the bus refused the next.
#[derive(Clone, Copy)]
pub(crate) struct Walked {
    pub(crate) made: u32,
    pub(crate) refused: bool,
}

/// The next allowed value above `from` on the way up to the target.
fn above(rail: &Rail, from: u32, target: u32) -> Pick
    requires rising { from < target }
    requires allowed { Contains (allowed rail.now) target }
    ensures next { values_to (allowed rail.now) target from ≡ result.uv ∷ values_to (allowed rail.now) target result.uv }
    ensures first { selector_for rail.now result.uv ≡ result.sel }
    ensures among { Contains (allowed rail.now) result.uv }
    ensures value { rail.now.changeable ≡ true → uv_of rail.now.desc.table result.sel ≡ Some result.uv }
    ensures nearer { from < result.uv }
    ensures not_past { result.uv ≤ target }
{
    rail.at_or_above(from + 1).unwrap()
}

/// The next allowed value below `from` on the way down to the target.
fn below(rail: &Rail, from: u32, target: u32) -> Pick
    requires falling { target < from }
    requires allowed { Contains (allowed rail.now) target }
    ensures next { values_to (allowed rail.now) target from ≡ result.uv ∷ values_to (allowed rail.now) target result.uv }
    ensures first { selector_for rail.now result.uv ≡ result.sel }
    ensures among { Contains (allowed rail.now) result.uv }
    ensures value { rail.now.changeable ≡ true → uv_of rail.now.desc.table result.sel ≡ Some result.uv }
    ensures nearer { result.uv < from }
    ensures not_past { target ≤ result.uv }
{
    rail.at_or_below(from - 1).unwrap()
}

/// The next allowed value on the way to the target.
pub(crate) fn toward(rail: &Rail, from: u32, target: u32) -> Pick
    requires apart { from ≢ target }
    requires allowed { Contains (allowed rail.now) target }
    ensures next { values_to (allowed rail.now) target from ≡ result.uv ∷ values_to (allowed rail.now) target result.uv }
    ensures first { selector_for rail.now result.uv ≡ result.sel }
    ensures among { Contains (allowed rail.now) result.uv }
    ensures value { rail.now.changeable ≡ true → uv_of rail.now.desc.table result.sel ≡ Some result.uv }
    ensures nearer { abs_diff result.uv target < abs_diff from target }
{
    if from < target {
        above(rail, from, target)
    } else {
        below(rail, from, target)
    }
}

/// Puts a number into the selector field of a rail: first on the bus and, where that takes it, in the
/// register. Tells whether the bus did.
fn put_selector<R: Rails, W: Wire>(
    board: &Board,
    rails: &mut R,
    wire: &mut W,
    r: RailId,
    rail: &Rail,
    pick: &Pick,
) -> bool
    requires valid { IsValid board.now }
    requires untied { IsUntied board.now }
    requires places { HavePlaces board.now }
    requires fits { R.fits rails.old }
    requires board { R.board rails.old ≡ board.now }
    requires there { slice_get board.now.rails r.0 ≡ Some rail.now }
    requires owned { IsOwned board.now (R.rails rails.old) r.0 }
    requires changeable { rail.now.changeable ≡ true }
    requires among { Contains (allowed rail.now) pick.now.uv }
    requires first { selector_for rail.now pick.now.uv ≡ pick.now.sel }
    requires value { uv_of rail.now.desc.table pick.now.sel ≡ Some pick.now.uv }
    ensures made { result ≡ true → PutsSelector r.0 pick.now.sel (shown_by R.board R.rails R.bits R.states rails.old) (shown_by R.board R.rails R.bits R.states rails.new) }
    ensures refused { result ≡ false → ShowsSame (shown_by R.board R.rails R.bits R.states rails.old) (shown_by R.board R.rails R.bits R.states rails.new) }
    ensures took { result ≡ true → Tells (updates_of board.now (move_of board.now (r.0, pick.now.uv) ∷ [])) false (told_by W.accepted W.plan W.faults wire.old) (told_by W.accepted W.plan W.faults wire.new) }
    ensures stopped { result ≡ false → Tells [] true (told_by W.accepted W.plan W.faults wire.old) (told_by W.accepted W.plan W.faults wire.new) }
    ensures fits { R.fits rails.new }
    ensures base { R.base rails.new ≡ R.base rails.old }
{
    let Some(field) = rail.desc.selector else {
        unreachable!()
    };
    let number = pick.sel as Bits;
    if !try_update(wire, &field, number) {
        return false;
    }
    rails.write(r, Part::Selector, number);
    true
}

/// Moves a rail to one of its values, by one update of its selector for each value on the way. Stops at
/// the first update that the bus refuses.
pub(crate) fn walk<R: Rails, W: Wire>(
    board: &Board,
    rails: &mut R,
    wire: &mut W,
    r: RailId,
    rail: &Rail,
    target: u32,
) -> Walked
    requires valid { IsValid board.now }
    requires untied { IsUntied board.now }
    requires places { HavePlaces board.now }
    requires fits { R.fits rails.old }
    requires board { R.board rails.old ≡ board.now }
    requires there { slice_get board.now.rails r.0 ≡ Some rail.now }
    requires guarded { IsGuarded board.now (R.rails rails.old) r.0 }
    requires owned { IsOwned board.now (R.rails rails.old) r.0 }
    requires allowed { Contains (allowed rail.now) target }
    requires seen { (regs : List (List ℕ)) × SeesLawful (shown_by R.board R.rails R.bits R.states rails.old) regs }
    ensures went { (regs : List (List ℕ)) → SeesLawful (shown_by R.board R.rails R.bits R.states rails.old) regs → WentTo (shown_by R.board R.rails R.bits R.states rails.old) (shown_by R.board R.rails R.bits R.states rails.new) (told_by W.accepted W.plan W.faults wire.old) (told_by W.accepted W.plan W.faults wire.new) result.made result.refused r.0 rail.now target regs }
    ensures books { (i : ℕ) → R.states rails.new i ≡ R.states rails.old i }
    ensures fits { R.fits rails.new }
    ensures board { R.board rails.new ≡ R.board rails.old }
    ensures rails { R.rails rails.new ≡ R.rails rails.old }
    ensures base { R.base rails.new ≡ R.base rails.old }
{
    let mut at = seen_uv(board, rails, r);
    let mut made = 0;
    while at != target {
        let pick = toward(rail, at, target);
        if !put_selector(board, rails, wire, r, rail, &pick) {
            return Walked {
                made,
                refused: true,
            };
        }
        at = pick.uv;
        made += 1;
    }
    Walked {
        made,
        refused: false,
    }
}
