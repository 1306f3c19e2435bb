ghost use Rattle.std.specs.Prelude.{◌≡◌, ◌↔◌, map, codes, IfOk, IfSome, IsNone, IsSomeAnd};
ghost use Rattle.std.specs.Option.{is_some};
ghost use Rattle.dts_nodes.specs.Use.{strings_at};
ghost use Rattle.pmic_tables.specs.ChipDesc.{IsDescribed};
ghost use Rattle.pmic_tables.specs.Sound.{AreSound, AreApart};
ghost use Rattle.board_nodes.specs.Chips.{sheet_at, first_sheet, has_fixed, is_fixed};

use dts_tree::Tree;
use pmic_tables::{ChipDesc, chip};
use std::alloc::{AllocError, Global};

/// The chip that a node is, at place `number` of a board; None where it is none.
pub(crate) fn chip_at(
    alloc: Global,
    tree: &Tree,
    node: u32,
    number: u8,
) -> Result<Option<ChipDesc>, AllocError>
    ensures none { IfOk result (λ found. IsNone found ↔ IsNone (sheet_at tree.now node)) }
    ensures described { IfOk result (λ found. IfSome found (λ desc. IsSomeAnd (sheet_at tree.now node) (λ sheet. IsDescribed number sheet desc))) }
    ensures sound { IfOk result (λ found. IfSome found (AreSound number)) }
    ensures apart { IfOk result (λ found. IfSome found AreApart) }
{
    let names = compatible(alloc, tree, node)?;
    first_chip(alloc, names.as_slice(), number)
}

/// Whether a node is a chip that is known.
pub(crate) fn is_chip(alloc: Global, tree: &Tree, node: u32) -> Result<bool, AllocError>
    ensures { IfOk result (λ known. known ≡ is_some (sheet_at tree.now node)) }
{
    Ok(chip_at(alloc, tree, node, 0)?.is_some())
}

/// Whether a node is a rail of one value.
pub(crate) fn is_fixed(alloc: Global, tree: &Tree, node: u32) -> Result<bool, AllocError>
    ensures { IfOk result (λ fixed. fixed ≡ is_fixed tree.now node) }
{
    let names = compatible(alloc, tree, node)?;
    Ok(has_fixed(names.as_slice()))
}

/// Whether one of the names is that of a rail of one value.
fn has_fixed(names: &[Vec<u8>]) -> bool
    ensures { result ≡ has_fixed (map (λ name. name.items) names.now) }
{
    for name in names {
        if b"regulator-fixed".as_slice() == name.as_slice() {
            return true;
        }
    }
    false
}

/// The strings of a node's `compatible`; none where it has another form.
fn compatible(alloc: Global, tree: &Tree, node: u32) -> Result<Vec<Vec<u8>>, AllocError>
    ensures { IfOk result (λ names. map (λ name. name.items) names.items ≡ strings_at tree.now node (codes "compatible")) }
{
    match tree.strings(alloc, node, b"compatible")? {
        Some(names) => Ok(names),
        None => Ok(Vec::new(alloc)),
    }
}

/// The first chip among names.
fn first_chip(alloc: Global, names: &[Vec<u8>], number: u8) -> Result<Option<ChipDesc>, AllocError>
    ensures none { IfOk result (λ found. IsNone found ↔ IsNone (first_sheet (map (λ name. name.items) names.now))) }
    ensures described { IfOk result (λ found. IfSome found (λ desc. IsSomeAnd (first_sheet (map (λ name. name.items) names.now)) (λ sheet. IsDescribed number sheet desc))) }
    ensures sound { IfOk result (λ found. IfSome found (AreSound number)) }
    ensures apart { IfOk result (λ found. IfSome found AreApart) }
{
    for name in names {
        let found = chip(alloc, name.as_slice(), number)?;
        if found.is_some() {
            return Ok(found);
        }
    }
    Ok(None)
}
