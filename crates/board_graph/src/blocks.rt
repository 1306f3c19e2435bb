ghost use Rattle.std.specs.Prelude.{◌≡◌, ◌<◌, ℕ, Some, None, nat_eq, IfOk, IfSome, OnOk, if◌then◌else◌, length, slice_index};
ghost use Rattle.std.specs.BTreeMap.{get};
ghost use Rattle.std.specs.Option.{option_or, unwrap_or};
ghost use Rattle.std.specs.Ordering.{nat_cmp};
ghost use Rattle.board_graph.specs.Graph.{count_of, IsGraph};
ghost use Rattle.board_graph.specs.Inside.Blocks.{feeder_of, feeds_of, led_by, AreLeaders};

use crate::graph::Graph;
use item_list::Items;
use std::alloc::{AllocError, Global};
use std::collections::BTreeMap;

/// For each rail the least rail of its group.
pub(crate) fn leaders(alloc: Global, groups: &[u16]) -> Result<Items<u16>, AllocError>
    requires { length groups.now < 65536 }
    ensures { IfOk result (AreLeaders groups.now) }
{
    let mut firsts = BTreeMap::new(alloc);
    let mut leaders = Items::new(alloc);
    for (rail, group) in groups.iter().enumerate() {
        let leader = leader_of(&mut firsts, *group, rail as u16)?;
        leaders.push(leader)?;
    }
    Ok(leaders)
}

/// The first rail of the group, which is the given one where there was none yet.
fn leader_of(firsts: &mut BTreeMap<u16, u16>, group: u16, rail: u16) -> Result<u16, AllocError>
    ensures leader { IfOk result (λ leader. leader ≡ unwrap_or (get nat_cmp firsts.old group) rail) }
    ensures firsts { OnOk result ((g : ℕ) → get nat_cmp firsts.new g ≡ option_or (get nat_cmp firsts.old g) (if nat_eq group g then Some rail else None)) }
{
    if let Some(first) = firsts.get(&group) {
        return Ok(*first);
    }
    firsts.insert(group, rail)?;
    Ok(rail)
}

/// The rails whose leader is marked.
pub(crate) fn led_by(
    alloc: Global,
    leaders: &[u16],
    marks: &[bool],
) -> Result<Items<u16>, AllocError>
    requires few { length leaders.now < 65536 }
    requires marks { (r : ℕ) → r < length leaders.now → slice_index leaders.now r < length marks.now }
    ensures { IfOk result (λ rails. rails ≡ led_by leaders.now marks.now (length leaders.now)) }
{
    let mut rails = Items::new(alloc);
    for rail in 0..leaders.len() {
        if marks[leaders[rail] as usize] {
            rails.push(rail as u16)?;
        }
    }
    Ok(rails)
}
