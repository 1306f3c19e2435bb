ghost use Rattle.std.specs.Prelude.{◌≡◌, ◌≢◌, ◌≤◌, true, false, None, Some, map, length, is_some, slice_get, IfOk, IfErr, OnOk};
ghost use Rattle.constraints.specs.Coupling.{couples_at, stated_spread};
ghost use Rattle.board_nodes.specs.Rails.{seen};
ghost use Rattle.board_draft.specs.declared.fault.BoardFault.TheVariants.{NoSpread};
ghost use Rattle.board_draft.specs.Faults.{at_rail};
ghost use Rattle.board_draft.specs.Links.{lacks_spread};

use crate::fault::BoardFault;
use board_nodes::RailNode;
use constraints::{couples, stated_spread};
use dts_tree::Tree;
use item_list::Items;
use std::alloc::{AllocError, Global};

/// The spread that each rail states, in µV, where it does; or the first coupled rail that states none.
pub(crate) fn spreads_of(
    alloc: Global,
    tree: &Tree,
    rails: &[RailNode],
) -> Result<Items<Option<u32>>, BoardFault>
    requires { length rails.now ≤ 64 }
    ensures fault { IfErr result (λ fault. fault ≢ BoardFault.Memory → at_rail (map seen rails.now) (λ r rail. lacks_spread tree.now rail) NoSpread ≡ Some fault) }
    ensures none { OnOk result (at_rail (map seen rails.now) (λ r rail. lacks_spread tree.now rail) NoSpread ≡ None) }
    ensures spreads { IfOk result (λ spreads. spreads ≡ map (λ rail. stated_spread tree.now rail.node) (map seen rails.now)) }
{
    let mut spreads = Vec::with_capacity(alloc, rails.len())?;
    for (r, rail) in rails.iter().enumerate() {
        let spread = spread_of(alloc, tree, r as u16, rail)?;
        spreads.push(spread)?;
    }
    Ok(Items::from_vec(spreads))
}

/// The spread that rail `r` states, where it does.
fn spread_of(alloc: Global, tree: &Tree, r: u16, rail: &RailNode) -> Result<Option<u32>, BoardFault>
    ensures fault { IfErr result (λ fault. fault ≢ BoardFault.Memory → fault ≡ BoardFault.NoSpread r × lacks_spread tree.now (seen rail.now) ≡ true) }
    ensures none { OnOk result (lacks_spread tree.now (seen rail.now) ≡ false) }
    ensures spread { IfOk result (λ spread. spread ≡ stated_spread tree.now rail.now.node) }
{
    let spread = stated_spread(alloc, tree, rail.node)?;
    if spread.is_none() && is_coupled(alloc, tree, rail)? {
        return Err(BoardFault::NoSpread(r));
    }
    Ok(spread)
}

/// Whether a rail names others.
fn is_coupled(alloc: Global, tree: &Tree, rail: &RailNode) -> Result<bool, AllocError>
    ensures { IfOk result (λ coupled. coupled ≡ is_some (slice_get (couples_at tree.now rail.now.node) 0)) }
{
    let couples = couples(alloc, tree, rail.node)?;
    Ok(couples.get(0).is_some())
}
