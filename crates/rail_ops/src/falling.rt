ghost use Rattle.std.specs.Prelude.{◌≡◌, ◌<◌, ◌≤◌, ◌-◌, ◌∷◌, ◌++◌, [], ℕ, List, All, Contains, None, length, false, true, option_map, IfOk, IfSome, OnErr, OnOk};
ghost use Rattle.board.specs.declared.event.Event.{Event as TheEvent};
ghost use Rattle.board.specs.declared.rail_id.RailId.{RailId as TheRailId};
ghost use Rattle.board.specs.Valid.{IsValid};
ghost use Rattle.reg_outside.specs.Bus.{told_by};
ghost use Rattle.rail_state.specs.Sight.{IsGuarded, IsOwned};
ghost use Rattle.plain_board.specs.declared.plain.Plain.{Plain};
ghost use Rattle.plain_board.specs.Plan.{chain_off, switch, upward};
ghost use Rattle.plain_board.specs.Untied.{IsUntied};
ghost use Rattle.rail_ops.specs.Inside.Falling.{CameDown, IsSighted, MayGoOff, WentDown, looks_idle};
ghost use Rattle.rail_ops.specs.Inside.Raised.{ChangesBook, ChangesVotes, PutsBit, SwitchesOff};
ghost use Rattle.rail_ops.specs.Inside.Rising.{LeadsUp};
ghost use Rattle.rail_ops.specs.Inside.Supplied.{HavePlaces};
ghost use Rattle.rail_ops.specs.Sight.{ShowsSame, shown_by};
ghost use Rattle.rail_ops.specs.Taking.{Tells, updates_of};

use crate::looking::{rail_at, seen_on};
use crate::switching::{tell, try_update, untell};
use board::{Board, Event, Part, RailId};
use rail_state::Rails;
use reg_outside::Wire;
use std::alloc::AllocError;

/// How far some rails went down: how many were switched off, and where the bus refused one.
#[derive(Clone, Copy)]
pub(crate) struct Fall {
    pub(crate) made: u32,
    pub(crate) refused: Option<RailId>,
}

/// Whether a rail is on and nothing uses it.
pub(crate) fn seen_idle<R: Rails>(board: &Board, rails: &mut R, r: RailId) -> bool
    requires fits { R.fits rails.old }
    requires board { R.board rails.old ≡ board.now }
    requires there { r.0 < length board.now.rails }
    requires held { Contains (R.rails rails.old) r.0 }
    requires guarded { IsGuarded board.now (R.rails rails.old) r.0 }
    ensures value { result ≡ looks_idle (shown_by R.board R.rails R.bits R.states rails.old) r.0 }
    ensures fits { R.fits rails.new }
    ensures same { ShowsSame (shown_by R.board R.rails R.bits R.states rails.old) (shown_by R.board R.rails R.bits R.states rails.new) }
    ensures base { R.base rails.new ≡ R.base rails.old }
{
    let unused = rails.state(r).use_count() == 0;
    seen_on(board, rails, r) && unused
}

/// Tells the listeners of a rail that it is to go off and doesn't. At `Err` nothing has changed.
fn tell_abort<R: Rails>(rails: &mut R, r: RailId) -> Result<(), AllocError>
    requires fits { R.fits rails.old }
    requires held { Contains (R.rails rails.old) r.0 }
    ensures ok { OnOk result (ChangesBook r.0 (record (R.states rails.old r.0) { events = (R.states rails.old r.0).events ++ Event.PreDisable ∷ Event.AbortDisable ∷ [] }) (shown_by R.board R.rails R.bits R.states rails.old) (shown_by R.board R.rails R.bits R.states rails.new)) }
    ensures err { OnErr result (ShowsSame (shown_by R.board R.rails R.bits R.states rails.old) (shown_by R.board R.rails R.bits R.states rails.new)) }
    ensures fits { R.fits rails.new }
    ensures base { R.base rails.new ≡ R.base rails.old }
{
    tell(rails, r, Event::PreDisable)?;
    match tell(rails, r, Event::AbortDisable) {
        Ok(()) => Ok(()),
        Err(refused) => {
            untell(rails, r);
            Err(refused)
        }
    }
}

/// Puts this event in the place of what a rail was told last.
fn retell<R: Rails>(rails: &mut R, r: RailId, event: Event)
    requires fits { R.fits rails.old }
    requires held { Contains (R.rails rails.old) r.0 }
    ensures book { (events : List TheEvent) (last : TheEvent) → (R.states rails.old r.0).events ≡ events ++ last ∷ [] → ChangesBook r.0 (record (R.states rails.old r.0) { events = events ++ event ∷ [] }) (shown_by R.board R.rails R.bits R.states rails.old) (shown_by R.board R.rails R.bits R.states rails.new) }
    ensures fits { R.fits rails.new }
    ensures base { R.base rails.new ≡ R.base rails.old }
{
    rails.state_mut(r).retell(event);
}

/// Takes a vote from a rail's supply, where it has one.
fn unvote<R: Rails>(rails: &mut R, supply: Option<RailId>)
    requires fits { R.fits rails.old }
    requires held { IfSome supply (λ s. Contains (R.rails rails.old) s.0) }
    requires some { IfSome supply (λ s. 0 < (R.states rails.old s.0).votes) }
    ensures vote { ChangesVotes (λ votes. votes - 1) supply (shown_by R.board R.rails R.bits R.states rails.old) (shown_by R.board R.rails R.bits R.states rails.new) }
    ensures fits { R.fits rails.new }
    ensures base { R.base rails.new ≡ R.base rails.old }
{
    if let Some(s) = supply {
        let state = rails.state_mut(s);
        let votes = state.votes();
        state.set_votes(votes - 1);
    }
}

/// Clears the on bit of a rail that supplies none that is on.
fn lower<R: Rails>(board: &Board, rails: &mut R, r: RailId)
    requires valid { IsValid board.now }
    requires untied { IsUntied board.now }
    requires places { HavePlaces board.now }
    requires fits { R.fits rails.old }
    requires board { R.board rails.old ≡ board.now }
    requires there { r.0 < length board.now.rails }
    requires owned { IsOwned board.now (R.rails rails.old) r.0 }
    requires free { MayGoOff (shown_by R.board R.rails R.bits R.states rails.old) r.0 }
    ensures bit { PutsBit 0 r.0 (shown_by R.board R.rails R.bits R.states rails.old) (shown_by R.board R.rails R.bits R.states rails.new) }
    ensures fits { R.fits rails.new }
    ensures base { R.base rails.new ≡ R.base rails.old }
{
    rails.write(r, Part::Enable, 0);
}

/// Switches off a rail that supplies none that is on, and tells whether the bus let it. The memory is
/// taken first: at `Err` nothing was tried.
pub(crate) fn switch_off<R: Rails, W: Wire>(
    board: &Board,
    rails: &mut R,
    wire: &mut W,
    r: RailId,
) -> Result<bool, AllocError>
    requires valid { IsValid board.now }
    requires untied { IsUntied board.now }
    requires places { HavePlaces board.now }
    requires fits { R.fits rails.old }
    requires board { R.board rails.old ≡ board.now }
    requires there { r.0 < length board.now.rails }
    requires held { Contains (R.rails rails.old) r.0 }
    requires owned { IsOwned board.now (R.rails rails.old) r.0 }
    requires free { MayGoOff (shown_by R.board R.rails R.bits R.states rails.old) r.0 }
    ensures made { IfOk result (λ made. made ≡ true → SwitchesOff r.0 (shown_by R.board R.rails R.bits R.states rails.old) (shown_by R.board R.rails R.bits R.states rails.new)) }
    ensures refused { IfOk result (λ made. made ≡ false → ChangesBook r.0 (record (R.states rails.old r.0) { events = (R.states rails.old r.0).events ++ Event.PreDisable ∷ Event.AbortDisable ∷ [] }) (shown_by R.board R.rails R.bits R.states rails.old) (shown_by R.board R.rails R.bits R.states rails.new)) }
    ensures err { OnErr result (ShowsSame (shown_by R.board R.rails R.bits R.states rails.old) (shown_by R.board R.rails R.bits R.states rails.new)) }
    ensures took { IfOk result (λ made. made ≡ true → Tells (updates_of board.now (switch 0 r.0 ∷ [])) false (told_by W.accepted W.plan W.faults wire.old) (told_by W.accepted W.plan W.faults wire.new)) }
    ensures stopped { IfOk result (λ made. made ≡ false → Tells [] true (told_by W.accepted W.plan W.faults wire.old) (told_by W.accepted W.plan W.faults wire.new)) }
    ensures untried { OnErr result (told_by W.accepted W.plan W.faults wire.new ≡ told_by W.accepted W.plan W.faults wire.old) }
    ensures fits { R.fits rails.new }
    ensures board { R.board rails.new ≡ R.board rails.old }
    ensures rails { R.rails rails.new ≡ R.rails rails.old }
    ensures base { R.base rails.new ≡ R.base rails.old }
{
    let rail = rail_at(board, r);
    tell_abort(rails, r)?;
    if !try_update(wire, &rail.desc.enable, 0) {
        return Ok(false);
    }
    lower(board, rails, r);
    retell(rails, r, Event::Disable);
    unvote(rails, rail.supply);
    Ok(true)
}

/// Switches off a rail and those above it, from below, as long as each is idle, and stops where the
/// bus refuses one. At `Err` the memory was out on the way.
pub(crate) fn go_down<R: Rails, W: Wire>(
    board: &Board,
    rails: &mut R,
    wire: &mut W,
    most: usize,
    r: Option<RailId>,
) -> Result<Fall, AllocError>
    requires valid { IsValid board.now }
    requires untied { IsUntied board.now }
    requires places { HavePlaces board.now }
    requires fits { R.fits rails.old }
    requires board { R.board rails.old ≡ board.now }
    requires there { IfSome r (λ id. id.0 < length board.now.rails) }
    requires few { most ≤ 65535 }
    requires up { LeadsUp board.now most (option_map (λ (id : TheRailId). id.0) r) }
    requires held { All (λ i. Contains (R.rails rails.old) i) (upward board.now.graph most (option_map (λ (id : TheRailId). id.0) r)) }
    requires owned { All (IsOwned board.now (R.rails rails.old)) (upward board.now.graph most (option_map (λ (id : TheRailId). id.0) r)) }
    requires seen { (plain : Plain) × IsSighted (shown_by R.board R.rails R.bits R.states rails.old) plain }
    ensures falls { IfOk result (λ fall. (plain : Plain) → IsSighted (shown_by R.board R.rails R.bits R.states rails.old) plain → CameDown (shown_by R.board R.rails R.bits R.states rails.old) (shown_by R.board R.rails R.bits R.states rails.new) (told_by W.accepted W.plan W.faults wire.old) (told_by W.accepted W.plan W.faults wire.new) fall.made (option_map (λ (id : TheRailId). id.0) fall.refused) plain (chain_off (R.board rails.old) plain (upward board.now.graph most (option_map (λ (id : TheRailId). id.0) r)))) }
    ensures there { IfOk result (λ fall. IfSome fall.refused (λ id. id.0 < length board.now.rails)) }
    ensures few { IfOk result (λ fall. fall.made ≤ most) }
    ensures err { OnErr result ((made : ℕ) × ((plain : Plain) → IsSighted (shown_by R.board R.rails R.bits R.states rails.old) plain → WentDown (shown_by R.board R.rails R.bits R.states rails.old) (shown_by R.board R.rails R.bits R.states rails.new) (told_by W.accepted W.plan W.faults wire.old) (told_by W.accepted W.plan W.faults wire.new) made None plain (chain_off (R.board rails.old) plain (upward board.now.graph most (option_map (λ (id : TheRailId). id.0) r))))) }
    ensures fits { R.fits rails.new }
    ensures board { R.board rails.new ≡ R.board rails.old }
    ensures rails { R.rails rails.new ≡ R.rails rails.old }
    ensures base { R.base rails.new ≡ R.base rails.old }
{
    let Some(r) = r else {
        return Ok(Fall {
            made: 0,
            refused: None,
        });
    };
    let rail = rail_at(board, r);
    if !seen_idle(board, rails, r) {
        return Ok(Fall {
            made: 0,
            refused: None,
        });
    }
    if !switch_off(board, rails, wire, r)? {
        return Ok(Fall {
            made: 0,
            refused: Some(r),
        });
    }
    let above = go_down(board, rails, wire, most - 1, rail.supply)?;
    Ok(Fall {
        made: above.made + 1,
        refused: above.refused,
    })
}
