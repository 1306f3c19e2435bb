ghost use Rattle.std.specs.Prelude.{◌≡◌, ◌≢◌, ◌<◌, ◌≤◌, ◌++◌, None, Some, length, map, OnOk, IfOk, IfErr};
ghost use Rattle.dts_nodes.specs.Firsts.{first_of};
ghost use Rattle.board_nodes.specs.Chips.{chip_count, chip_resets};
ghost use Rattle.board_nodes.specs.Rails.{rails_at, rails_in};
ghost use Rattle.board_nodes.specs.Inside.Drafts.{found_in};
ghost use Rattle.board_nodes.specs.Inside.Faults.{chip_faults, count_faults, rail_faults};
ghost use Rattle.board_nodes.specs.Inside.Outline.{IsOutline, IsThere};
ghost use Rattle.board_nodes.specs.Inside.Sheets.{IsSoundChip};
ghost use Rattle.board_nodes.specs.Inside.Survey.{IsSurvey, HasChips, IsPlan};

use crate::compatible::chip_at;
use crate::draft::{Draft, put_fixed, put_rails};
use crate::fault::NodesFault;
use crate::outline::Outline;
use crate::survey::{Survey, chip_count, survey_of};
use chip_regs::Bits;
use dts_tree::Tree;
use item_list::Items;
use pmic_tables::ChipDesc;
use std::alloc::{AllocError, Global};

/// The rails of a board before their names are looked at, and its chips.
#[derive(Drop)]
pub(crate) struct Plan {
    pub(crate) drafts: Items<Draft>,
    pub(crate) resets: Items<(u8, u8, Bits)>,
    pub(crate) chips: u8,
}

/// The plan of a board, unless its chips or the number of its rails are against it.
pub(crate) fn plan_of(alloc: Global, tree: &Tree) -> Result<Plan, NodesFault>
    ensures plan { IfOk result (IsPlan tree.now) }
    ensures chips { IfOk result (λ plan. first_of (chip_faults tree.now) ≡ None) }
    ensures rails { IfOk result (λ plan. first_of (rail_faults tree.now) ≡ None) }
    ensures fault { IfErr result (λ fault. fault ≢ NodesFault.Memory → first_of (chip_faults tree.now ++ rail_faults tree.now) ≡ Some fault) }
{
    let survey = survey_of(alloc, tree)?;
    let chips = chip_count(alloc, tree, &survey)?;
    let mut plan = chips_plan(alloc, tree, &survey, chips)?;
    let fixed = survey.fixed.as_slice();
    check_count(plan.drafts.as_slice().len() + fixed.len())?;
    put_fixed(
        alloc,
        tree,
        survey.chips.len() as u8,
        fixed,
        &mut plan.drafts,
    )?;
    Ok(plan)
}

/// Whether there are neither too many rails nor none.
fn check_count(count: usize) -> Result<(), NodesFault>
    ensures none { OnOk result (first_of (count_faults count) ≡ None) }
    ensures fault { IfErr result (λ fault. first_of (count_faults count) ≡ Some fault) }
{
    if count > 64 {
        return Err(NodesFault::TooManyRails(count));
    }
    if count == 0 {
        return Err(NodesFault::NoRails);
    }
    Ok(())
}

/// The plan with the rails of the chips.
fn chips_plan(alloc: Global, tree: &Tree, survey: &Survey, chips: u8) -> Result<Plan, AllocError>
    requires survey { IsSurvey tree.now survey.now }
    requires few { length survey.now.chips ≤ 16 }
    ensures { IfOk result (HasChips tree.now survey.now.chips chips) }
{
    let mut plan = Plan {
        drafts: Items::new(alloc),
        resets: Items::new(alloc),
        chips,
    };
    let mut number = 0;
    for node in survey.chips.as_slice() {
        put_chip(alloc, tree, &survey.outline, number, *node, &mut plan)?;
        number += 1;
    }
    Ok(plan)
}

/// The rails of a chip, by its number and its node, and its registers that aren't 0 after a reset,
/// behind those that are there.
fn put_chip(
    alloc: Global,
    tree: &Tree,
    outline: &Outline,
    number: u8,
    node: u32,
    plan: &mut Plan,
) -> Result<(), AllocError>
    requires outline { IsOutline tree.now outline.now }
    requires node { IsThere tree.now node }
    ensures rails { OnOk result (map found_in plan.new.drafts ≡ map found_in plan.old.drafts ++ rails_at tree.now number node) }
    ensures resets { OnOk result (plan.new.resets ≡ plan.old.resets ++ chip_resets tree.now number node) }
    ensures chips { OnOk result (plan.new.chips ≡ plan.old.chips) }
    ensures sound { OnOk result (IsSoundChip tree.now number node) }
{
    let Some(chip) = chip_at(alloc, tree, node, number)? else {
        return Ok(());
    };
    let ChipDesc { rails, resets } = chip;
    put_resets(number, resets.as_slice(), &mut plan.resets)?;
    match outline.child(tree, node, b"regulators") {
        Some(regulators) => put_rails(
            alloc,
            tree,
            outline,
            node,
            regulators,
            rails,
            &mut plan.drafts,
        ),
        None => Ok(()),
    }
}

fn put_resets(
    number: u8,
    registers: &[(u8, Bits)],
    resets: &mut Items<(u8, u8, Bits)>,
) -> Result<(), AllocError>
    ensures { OnOk result (resets.new ≡ resets.old ++ map (λ reset. (number, reset.0, reset.1)) registers.now) }
{
    for (register, content) in registers {
        resets.push((number, *register, *content))?;
    }
    Ok(())
}
