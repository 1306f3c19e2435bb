ghost use Rattle.std.specs.Prelude.{◌≡◌, ◌<◌, ◌≤◌, ◌*◌, ℕ, false, All, Contains, Some, None, length, option_map, IfOk, IfSome, OnErr};
ghost use Rattle.board.specs.declared.part.Part.TheVariants.{Enable as EnableBit};
ghost use Rattle.board.specs.declared.rail_id.RailId.{RailId as TheRailId};
ghost use Rattle.board.specs.Valid.{IsValid};
ghost use Rattle.reg_outside.specs.Bus.{told_by};
ghost use Rattle.rail_state.specs.Sight.{IsOwned};
ghost use Rattle.plain_board.specs.declared.plain.Plain.{Plain};
ghost use Rattle.plain_board.specs.Answer.{enable_time};
ghost use Rattle.plain_board.specs.Plan.{upward};
ghost use Rattle.plain_board.specs.Untied.{IsUntied};
ghost use Rattle.rail_ops.specs.Inside.Rising.{CameUp, IsSeen, LeadsUp, WentUp, rises};
ghost use Rattle.rail_ops.specs.Inside.Supplied.{HavePlaces};
ghost use Rattle.rail_ops.specs.Sight.{shown_by};

use crate::looking::{rail_at, seen_on};
use crate::switching::switch_on;
use board::{Board, Rail, RailId};
use rail_state::Rails;
use reg_outside::Wire;
use std::alloc::AllocError;

/// How far some rails came up: how many were switched on, how long these take in µs, and where the
/// bus refused one.
#[derive(Clone, Copy)]
pub(crate) struct Rise {
    pub(crate) made: u32,
    pub(crate) delay: u64,
    pub(crate) refused: Option<RailId>,
}

/// How long a rail takes to come up, in µs: as its node says, where that is above 0, and else as its
/// description does.
fn enable_time(rail: &Rail) -> u32
    ensures { result ≡ enable_time rail.now }
{
    if rail.limits.enable_ramp == 0 {
        rail.desc.enable_time
    } else {
        rail.limits.enable_ramp
    }
}

/// Switches on a rail and those above it that are off, from above, and stops where the bus refuses
/// one. At `Err` the memory was out on the way.
pub(crate) fn come_up<R: Rails, W: Wire>(
    board: &Board,
    rails: &mut R,
    wire: &mut W,
    most: usize,
    r: Option<RailId>,
) -> Result<Rise, AllocError>
    requires valid { IsValid board.now }
    requires untied { IsUntied board.now }
    requires places { HavePlaces board.now }
    requires fits { R.fits rails.old }
    requires board { R.board rails.old ≡ board.now }
    requires there { IfSome r (λ id. id.0 < length board.now.rails) }
    requires few { most ≤ 65535 }
    requires up { LeadsUp board.now most (option_map (λ (id : TheRailId). id.0) r) }
    requires held { All (λ i. Contains (R.rails rails.old) i) (upward board.now.graph most (option_map (λ (id : TheRailId). id.0) r)) }
    requires owned { All (IsOwned board.now (R.rails rails.old)) (upward board.now.graph most (option_map (λ (id : TheRailId). id.0) r)) }
    requires seen { (plain : Plain) × IsSeen (shown_by R.board R.rails R.bits R.states rails.old) plain }
    ensures rises { IfOk result (λ rise. (plain : Plain) → IsSeen (shown_by R.board R.rails R.bits R.states rails.old) plain → CameUp (shown_by R.board R.rails R.bits R.states rails.old) (shown_by R.board R.rails R.bits R.states rails.new) (told_by W.accepted W.plan W.faults wire.old) (told_by W.accepted W.plan W.faults wire.new) rise.made rise.delay (option_map (λ (id : TheRailId). id.0) rise.refused) plain (rises (R.board rails.old) plain.regs (upward board.now.graph most (option_map (λ (id : TheRailId). id.0) r)))) }
    ensures on { IfOk result (λ rise. rise.refused ≡ None → IfSome r (λ id. R.bits rails.new id.0 EnableBit ≡ 1)) }
    ensures there { IfOk result (λ rise. IfSome rise.refused (λ id. id.0 < length board.now.rails)) }
    ensures bounded { IfOk result (λ rise. rise.delay ≤ rise.made * 4294967295) }
    ensures err { OnErr result ((made : ℕ) × ((plain : Plain) → IsSeen (shown_by R.board R.rails R.bits R.states rails.old) plain → WentUp (shown_by R.board R.rails R.bits R.states rails.old) (shown_by R.board R.rails R.bits R.states rails.new) (told_by W.accepted W.plan W.faults wire.old) (told_by W.accepted W.plan W.faults wire.new) made false plain (rises (R.board rails.old) plain.regs (upward board.now.graph most (option_map (λ (id : TheRailId). id.0) r))))) }
    ensures fits { R.fits rails.new }
    ensures board { R.board rails.new ≡ R.board rails.old }
    ensures rails { R.rails rails.new ≡ R.rails rails.old }
    ensures base { R.base rails.new ≡ R.base rails.old }
{
    let Some(r) = r else {
        return Ok(Rise {
            made: 0,
            delay: 0,
            refused: None,
        });
    };
    let rail = rail_at(board, r);
    let above = come_up(board, rails, wire, most - 1, rail.supply)?;
    if above.refused.is_some() {
        return Ok(above);
    }
    if seen_on(board, rails, r) {
        return Ok(above);
    }
    if !switch_on(board, rails, wire, r)? {
        return Ok(Rise {
            made: above.made,
            delay: above.delay,
            refused: Some(r),
        });
    }
    Ok(Rise {
        made: above.made + 1,
        delay: above.delay + u64::from(enable_time(rail)),
        refused: None,
    })
}
