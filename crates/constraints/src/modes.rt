ghost use Rattle.std.specs.Prelude.{◌≡◌, ◌≢◌, ◌≤◌, [], Some, None, IfOk, IfErr, OnOk, nat_eq, if◌then◌else◌};
ghost use Rattle.std.specs.List.{list_any};
ghost use Rattle.std.specs.Option.{option_map, option_to_list, option_and_then, is_some};
ghost use Rattle.load_modes.specs.Modes.{bits_of};
ghost use Rattle.dts_nodes.specs.Forms.{is_or, told_by};
ghost use Rattle.constraints.specs.ModeCells.{mode_of_number, allowed_numbers, initial_number, first_bad, bad_mode, set_of, named_modes, allowed_modes, initial_mode};

use crate::fault::RailFault;
use crate::prop::Prop;
use crate::reading::told;
use bitflags::Flags;
use board::Desc;
use dts_nodes::{Form, number, numbers};
use dts_tree::Tree;
use load_modes::{Mode, Modes};
use std::alloc::Global;

/// The modes that a rail may be in, and its mode at the start, or the first number that is no mode. A
/// rail without a mode field has none.
pub(crate) fn modes_of(
    alloc: Global,
    tree: &Tree,
    node: u32,
    rail: u16,
    desc: &Desc,
) -> Result<(Modes, Option<Mode>), RailFault>
    ensures fault { IfErr result (λ fault. fault ≢ RailFault.Memory → option_map (λ n. RailFault.BadMode rail n) (bad_mode tree.now node desc.now) ≡ Some fault) }
    ensures none { OnOk result (bad_mode tree.now node desc.now ≡ None) }
    ensures allowed { IfOk result (λ modes. modes.0 ≡ allowed_modes tree.now node desc.now) }
    ensures initial { IfOk result (λ modes. modes.1 ≡ initial_mode tree.now node desc.now) }
{
    if desc.modes.is_none() {
        return Ok((Modes::empty(), None));
    }
    let allowed = allowed_of(alloc, tree, node, rail)?;
    let initial = initial_of(alloc, tree, node, rail)?;
    Ok((allowed, initial))
}

/// The modes that a node allows, all where it names none, or the first number that is no mode.
fn allowed_of(alloc: Global, tree: &Tree, node: u32, rail: u16) -> Result<Modes, RailFault>
    ensures fault { IfErr result (λ fault. fault ≢ RailFault.Memory → option_map (λ n. RailFault.BadMode rail n) (first_bad (is_or [] (allowed_numbers tree.now node))) ≡ Some fault) }
    ensures none { OnOk result (first_bad (is_or [] (allowed_numbers tree.now node)) ≡ None) }
    ensures modes { IfOk result (λ modes. bits_of modes ≡ named_modes (allowed_numbers tree.now node)) }
{
    match numbers(alloc, tree, node, Prop::AllowedModes.name())? {
        Form::Absent => Ok(all_modes()),
        Form::Wrong => Ok(all_modes()),
        Form::Is(numbers) => match first_bad(numbers.as_slice()) {
            Some(n) => Err(RailFault::BadMode { rail, n }),
            None => Ok(set_of(numbers.as_slice())),
        },
    }
}

/// All modes.
#[tactic(auto, unfolding(bitflags::proofs::OnLiterals::bitflags_on_literals))]
fn all_modes() -> Modes
    ensures { bits_of result ≡ 15 }
{
    Modes::all()
}

/// The mode at the start, where the node names one, or the number that is no mode.
fn initial_of(alloc: Global, tree: &Tree, node: u32, rail: u16) -> Result<Option<Mode>, RailFault>
    ensures fault { IfErr result (λ fault. fault ≢ RailFault.Memory → option_map (λ n. RailFault.BadMode rail n) (first_bad (option_to_list (told_by (initial_number tree.now node)))) ≡ Some fault) }
    ensures none { OnOk result (first_bad (option_to_list (told_by (initial_number tree.now node))) ≡ None) }
    ensures mode { IfOk result (λ mode. mode ≡ option_and_then mode_of_number (told_by (initial_number tree.now node))) }
{
    let Some(n) = told(number(alloc, tree, node, Prop::InitialMode.name())?) else {
        return Ok(None);
    };
    match mode_of_number(n) {
        Some(mode) => Ok(Some(mode)),
        None => Err(RailFault::BadMode { rail, n }),
    }
}

/// The first number that is no mode.
fn first_bad(numbers: &[u32]) -> Option<u32>
    ensures { result ≡ first_bad numbers.now }
{
    numbers
        .iter()
        .copied()
        .find(|n| mode_of_number(*n).is_none())
}

/// The mode of a number, one of those of Linux's `REGULATOR_MODE_FAST` to `REGULATOR_MODE_STANDBY` in
/// `include/linux/regulator/consumer.h`.
fn mode_of_number(n: u32) -> Option<Mode>
    ensures { result ≡ mode_of_number n }
{
    match n {
        1 => Some(Mode::Fast),
        2 => Some(Mode::Normal),
        4 => Some(Mode::Idle),
        8 => Some(Mode::Standby),
        _ => None,
    }
}

/// The set of the modes with these numbers.
fn set_of(numbers: &[u32]) -> Modes
    ensures { bits_of result ≡ set_of numbers.now }
{
    Modes::from_bits_retain(
        bit_in(numbers, 1) + bit_in(numbers, 2) + bit_in(numbers, 4) + bit_in(numbers, 8),
    )
}

/// The bit, where it is one of the numbers, else 0.
fn bit_in(numbers: &[u32], bit: u8) -> u8
    ensures bit { result ≡ (if list_any (λ n. nat_eq n bit) numbers.now then bit else 0) }
    ensures most { result ≤ bit }
{
    if numbers.contains(&u32::from(bit)) {
        bit
    } else {
        0
    }
}
