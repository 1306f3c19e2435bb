ghost use Rattle.std.specs.Prelude.{◌≡◌, ◌≢◌, ◌≤◌, Some, IfOk, IfErr};
ghost use Rattle.dts_nodes.specs.Firsts.{first_of};
ghost use Rattle.board_nodes.specs.Chips.{chip_nodes, chip_count};
ghost use Rattle.board_nodes.specs.Inside.Faults.{chip_faults};
ghost use Rattle.board_nodes.specs.Inside.Survey.{IsSurvey};

use crate::chips::{chip_nodes, fixed_nodes, unknown_chip};
use crate::fault::NodesFault;
use crate::outline::{Outline, outline_of};
use dts_tree::Tree;
use item_list::Items;
use std::alloc::{AllocError, Global};

/// The chips and the fixed rails of a tree.
pub(crate) struct Survey {
    pub(crate) outline: Outline,
    /// The chips' nodes in tree order.
    pub(crate) chips: Items<u32>,
    /// The fixed rails' nodes in tree order.
    pub(crate) fixed: Items<u32>,
}

impl Drop for Survey {
    /// Ends all parts, so that an owner's code has one call for it.
    fn drop(self) {
        let Survey {
            outline: _,
            chips: _,
            fixed: _,
        } = self;
    }
}

/// The survey of a tree.
pub(crate) fn survey_of(alloc: Global, tree: &Tree) -> Result<Survey, AllocError>
    ensures { IfOk result (IsSurvey tree.now) }
{
    let outline = outline_of(alloc, tree)?;
    let chips = chip_nodes(alloc, tree, &outline)?;
    let fixed = fixed_nodes(alloc, tree, &outline)?;
    Ok(Survey {
        outline,
        chips,
        fixed,
    })
}

/// How many chips there are, unless they are too many or one isn't known.
pub(crate) fn chip_count(alloc: Global, tree: &Tree, survey: &Survey) -> Result<u8, NodesFault>
    requires { IsSurvey tree.now survey.now }
    ensures count { IfOk result (λ count. count ≡ chip_count tree.now) }
    ensures none { IfOk result (λ count. first_of (chip_faults tree.now) ≡ None) }
    ensures fault { IfErr result (λ fault. fault ≢ NodesFault.Memory → first_of (chip_faults tree.now) ≡ Some fault) }
{
    let of_fixed = if survey.fixed.is_empty() { 0 } else { 1 };
    let count = survey.chips.as_slice().len() + of_fixed;
    if count > 16 {
        return Err(NodesFault::TooManyChips(count));
    }
    match unknown_chip(alloc, tree, &survey.outline)? {
        Some(at) => Err(NodesFault::UnknownChip(at)),
        None => Ok(count as u8),
    }
}
