ghost use Rattle.std.specs.Prelude.{◌≡◌, ◌<◌, ◌+◌, ◌*◌, ◌^◌, ◌∷◌, ◌++◌, [], ℕ, List, Some, IfSome, option_map, Contains, length, true, false, IfOk, OnOk, OnErr};
ghost use Rattle.board.specs.declared.event.Event.{Event as TheEvent};
ghost use Rattle.board.specs.Valid.{IsValid};
ghost use Rattle.chip_regs.specs.Field.{IsField, FitsField};
ghost use Rattle.reg_outside.specs.Bus.{told_by};
ghost use Rattle.rail_state.specs.Sight.{IsOwned};
ghost use Rattle.plain_board.specs.Plan.{switch};
ghost use Rattle.plain_board.specs.Untied.{IsUntied};
ghost use Rattle.rail_ops.specs.Inside.Raised.{AddsVote, ChangesBook, RaisesBit, SwitchesOn};
ghost use Rattle.rail_ops.specs.Inside.Supplied.{HasUpheldSupply, HavePlaces};
ghost use Rattle.rail_ops.specs.Sight.{ShowsSame, shown_by};
ghost use Rattle.rail_ops.specs.Taking.{Tells, updates_of};

use crate::looking::rail_at;
use board::{Board, Event, Part, RailId};
use chip_regs::{Bits, Field};
use rail_state::Rails;
use reg_outside::Wire;
use std::alloc::AllocError;

/// Tells the listeners of a rail of an event. At `Err` nothing has changed.
pub(crate) fn tell<R: Rails>(rails: &mut R, r: RailId, event: Event) -> Result<(), AllocError>
    requires fits { R.fits rails.old }
    requires held { Contains (R.rails rails.old) r.0 }
    ensures ok { OnOk result (ChangesBook r.0 (record (R.states rails.old r.0) { events = (R.states rails.old r.0).events ++ event ∷ [] }) (shown_by R.board R.rails R.bits R.states rails.old) (shown_by R.board R.rails R.bits R.states rails.new)) }
    ensures err { OnErr result (ShowsSame (shown_by R.board R.rails R.bits R.states rails.old) (shown_by R.board R.rails R.bits R.states rails.new)) }
    ensures fits { R.fits rails.new }
    ensures base { R.base rails.new ≡ R.base rails.old }
{
    rails.state_mut(r).tell(event)
}

/// Takes back what a rail was told last.
pub(crate) fn untell<R: Rails>(rails: &mut R, r: RailId)
    requires fits { R.fits rails.old }
    requires held { Contains (R.rails rails.old) r.0 }
    ensures book { (events : List TheEvent) (last : TheEvent) → (R.states rails.old r.0).events ≡ events ++ last ∷ [] → ChangesBook r.0 (record (R.states rails.old r.0) { events = events }) (shown_by R.board R.rails R.bits R.states rails.old) (shown_by R.board R.rails R.bits R.states rails.new) }
    ensures fits { R.fits rails.new }
    ensures base { R.base rails.new ≡ R.base rails.old }
{
    rails.state_mut(r).untell();
}

/// Gives a rail's supply one vote more, where it has one.
pub(crate) fn vote<R: Rails>(rails: &mut R, supply: Option<RailId>)
    requires fits { R.fits rails.old }
    requires held { IfSome supply (λ s. Contains (R.rails rails.old) s.0) }
    requires room { IfSome supply (λ s. (R.states rails.old s.0).votes + 1 < 2 ^ 32) }
    ensures vote { AddsVote supply (shown_by R.board R.rails R.bits R.states rails.old) (shown_by R.board R.rails R.bits R.states rails.new) }
    ensures fits { R.fits rails.new }
    ensures base { R.base rails.new ≡ R.base rails.old }
{
    if let Some(s) = supply {
        let state = rails.state_mut(s);
        let votes = state.votes();
        state.set_votes(votes + 1);
    }
}

/// Sets the on bit of a rail whose supply is on.
pub(crate) fn raise<R: Rails>(board: &Board, rails: &mut R, r: RailId)
    requires valid { IsValid board.now }
    requires untied { IsUntied board.now }
    requires places { HavePlaces board.now }
    requires fits { R.fits rails.old }
    requires board { R.board rails.old ≡ board.now }
    requires there { r.0 < length board.now.rails }
    requires owned { IsOwned board.now (R.rails rails.old) r.0 }
    requires supplied { HasUpheldSupply (shown_by R.board R.rails R.bits R.states rails.old) r.0 }
    ensures bit { RaisesBit r.0 (shown_by R.board R.rails R.bits R.states rails.old) (shown_by R.board R.rails R.bits R.states rails.new) }
    ensures fits { R.fits rails.new }
    ensures base { R.base rails.new ≡ R.base rails.old }
{
    rails.write(r, Part::Enable, 1);
}

/// Asks the bus to put a number into a field, and tells whether it did.
pub(crate) fn try_update<W: Wire>(wire: &mut W, field: &Field, number: Bits) -> bool
    requires field { IsField field.now }
    requires room { FitsField field.now number }
    ensures taken { result ≡ true → Tells ((field.now.chip, field.now.reg, field.now.mask, number * 2 ^ field.now.shift) ∷ []) false (told_by W.accepted W.plan W.faults wire.old) (told_by W.accepted W.plan W.faults wire.new) }
    ensures refused { result ≡ false → Tells [] true (told_by W.accepted W.plan W.faults wire.old) (told_by W.accepted W.plan W.faults wire.new) }
{
    match wire.update(field.chip, field.reg, field.mask, number << field.shift) {
        Ok(()) => true,
        Err(_) => false,
    }
}

/// Switches on a rail whose supply is on, and tells whether the bus let it. The memory is taken first:
/// at `Err` nothing was tried.
pub(crate) fn switch_on<R: Rails, W: Wire>(
    board: &Board,
    rails: &mut R,
    wire: &mut W,
    r: RailId,
) -> Result<bool, AllocError>
    requires valid { IsValid board.now }
    requires untied { IsUntied board.now }
    requires places { HavePlaces board.now }
    requires fits { R.fits rails.old }
    requires board { R.board rails.old ≡ board.now }
    requires there { r.0 < length board.now.rails }
    requires held { Contains (R.rails rails.old) r.0 }
    requires owned { IsOwned board.now (R.rails rails.old) r.0 }
    requires supplied { HasUpheldSupply (shown_by R.board R.rails R.bits R.states rails.old) r.0 }
    ensures made { IfOk result (λ made. made ≡ true → SwitchesOn r.0 (shown_by R.board R.rails R.bits R.states rails.old) (shown_by R.board R.rails R.bits R.states rails.new)) }
    ensures refused { IfOk result (λ made. made ≡ false → ShowsSame (shown_by R.board R.rails R.bits R.states rails.old) (shown_by R.board R.rails R.bits R.states rails.new)) }
    ensures err { OnErr result (ShowsSame (shown_by R.board R.rails R.bits R.states rails.old) (shown_by R.board R.rails R.bits R.states rails.new)) }
    ensures took { IfOk result (λ made. made ≡ true → Tells (updates_of board.now (switch 1 r.0 ∷ [])) false (told_by W.accepted W.plan W.faults wire.old) (told_by W.accepted W.plan W.faults wire.new)) }
    ensures stopped { IfOk result (λ made. made ≡ false → Tells [] true (told_by W.accepted W.plan W.faults wire.old) (told_by W.accepted W.plan W.faults wire.new)) }
    ensures untried { OnErr result (told_by W.accepted W.plan W.faults wire.new ≡ told_by W.accepted W.plan W.faults wire.old) }
    ensures fits { R.fits rails.new }
    ensures base { R.base rails.new ≡ R.base rails.old }
{
    let rail = rail_at(board, r);
    tell(rails, r, Event::Enable)?;
    if !try_update(wire, &rail.desc.enable, 1) {
        untell(rails, r);
        return Ok(false);
    }
    raise(board, rails, r);
    vote(rails, rail.supply);
    Ok(true)
}
