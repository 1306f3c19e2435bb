ghost use Rattle.std.specs.Prelude.{◌≡◌, ◌≢◌, ◌≤◌, None, Some, All, length, map, OnOk, IfOk, IfErr};
ghost use Rattle.dts_nodes.specs.Firsts.{first_of};
ghost use Rattle.board_nodes.specs.Chips.{chip_count, resets_of};
ghost use Rattle.board_nodes.specs.Rails.{seen, rails_in};
ghost use Rattle.board_nodes.specs.Faults.{nodes_fault};
ghost use Rattle.board_nodes.specs.Sound.{IsSoundRail, StandsIn, NoneShare};
ghost use Rattle.board_nodes.specs.Inside.Drafts.{found_in, name_of, IsShort, AreShort};
ghost use Rattle.board_nodes.specs.Inside.Faults.{name_faults_of};

use crate::draft::Draft;
use crate::fault::NodesFault;
use crate::names::{long_name, two_names};
use crate::plan::{Plan, plan_of};
use crate::rail_node::{BoardNodes, RailNode};
use board::Name;
use dts_tree::Tree;
use item_list::Items;
use std::alloc::{AllocError, Global};

/// The chips and the rails of a board, or the first reason why the nodes make none. What stands below
/// a node that isn't in use is read over.
pub fn board_nodes(alloc: Global, tree: &Tree) -> Result<BoardNodes, NodesFault>
    ensures fault { IfErr result (λ fault. fault ≢ NodesFault.Memory → nodes_fault tree.now ≡ Some fault) }
    ensures none { OnOk result (nodes_fault tree.now ≡ None) }
    ensures rails { IfOk result (λ nodes. map seen nodes.rails ≡ rails_in tree.now) }
    ensures chips { IfOk result (λ nodes. nodes.chips ≡ chip_count tree.now) }
    ensures resets { IfOk result (λ nodes. nodes.resets ≡ resets_of tree.now) }

    // What a board needs of its descriptions.
    ensures sound { IfOk result (λ nodes. All (λ rail. IsSoundRail nodes.chips (seen rail)) nodes.rails) }
    ensures apart { IfOk result (λ nodes. NoneShare (map (λ rail. rail.desc) nodes.rails)) }
    ensures nodes { IfOk result (λ nodes. All (λ rail. StandsIn (length tree.now) (seen rail)) nodes.rails) }
{
    let plan = plan_of(alloc, tree)?;
    check_names(plan.drafts.as_slice())?;
    let Plan {
        drafts,
        resets,
        chips,
    } = plan;
    let rails = named(alloc, drafts)?;
    Ok(BoardNodes {
        rails,
        chips,
        resets,
    })
}

/// Whether no name is too long, and no two are one.
fn check_names(drafts: &[Draft]) -> Result<(), NodesFault>
    requires { length drafts.now ≤ 64 }
    ensures none { OnOk result (first_of (name_faults_of (map name_of drafts.now)) ≡ None) }
    ensures short { OnOk result (AreShort drafts.now) }
    ensures fault { IfErr result (λ fault. first_of (name_faults_of (map name_of drafts.now)) ≡ Some fault) }
{
    if let Some(rail) = long_name(drafts) {
        return Err(NodesFault::NameTooLong(rail));
    }
    match two_names(drafts) {
        Some((a, b)) => Err(NodesFault::TwoNames(a, b)),
        None => Ok(()),
    }
}

/// The rails with their names.
fn named(alloc: Global, drafts: Items<Draft>) -> Result<Items<RailNode>, AllocError>
    requires { AreShort drafts }
    ensures { IfOk result (λ rails. map seen rails ≡ map found_in drafts) }
{
    let mut rails = Items::new(alloc);
    for draft in drafts.into_vec() {
        rails.push(rail_of(draft))?;
    }
    Ok(rails)
}

fn rail_of(draft: Draft) -> RailNode
    requires { IsShort draft }
    ensures { seen result ≡ found_in draft }
{
    let Draft {
        name,
        node,
        chip_node,
        supply,
        desc,
    } = draft;
    RailNode {
        name: Name::from(name.as_str()).unwrap(),
        node,
        chip_node,
        supply,
        desc,
    }
}
