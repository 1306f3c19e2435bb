ghost use Rattle.std.specs.Prelude.{◌≡◌, Some, None, IfOk, MatchOption, length};
ghost use Rattle.std.specs.List.{AllByRecursion};
ghost use Rattle.dts_tree.specs.Look.{only_number, property_at, IsCellBelow};
ghost use Rattle.dts_nodes.specs.Forms.{missing, numbers_of, only_cell, number_at, cell_at, numbers_at, cells_at, first_string_at, IfIs};

use crate::form::Form;
use dts_tree::{Cell, Tree};
use item_list::Items;
use std::alloc::{AllocError, Global};

/// The one number of a property, as in `<1000000>`.
pub fn number(alloc: Global, tree: &Tree, node: u32, prop: &[u8]) -> Result<Form<u32>, AllocError>
    ensures { IfOk result (λ form. form ≡ number_at tree.now node prop.now) }
{
    let form = match tree.cells(alloc, node, prop)? {
        Some(cells) => match only_number(cells.as_slice()) {
            Some(n) => Form::Is(n),
            None => Form::Wrong,
        },
        None => missing(tree, node, prop),
    };
    Ok(form)
}

/// The numbers of a property, in all its parts, as in `<1 2>, <4>`; there may be none.
pub fn numbers(
    alloc: Global,
    tree: &Tree,
    node: u32,
    prop: &[u8],
) -> Result<Form<Items<u32>>, AllocError>
    ensures { IfOk result (λ form. form ≡ numbers_at tree.now node prop.now) }
{
    let form = match tree.cells(alloc, node, prop)? {
        Some(cells) => match numbers_of(alloc, cells.as_slice())? {
            Some(numbers) => Form::Is(numbers),
            None => Form::Wrong,
        },
        None => missing(tree, node, prop),
    };
    Ok(form)
}

/// The cells of a property, in all its parts, as in `<&battery 7>`; there may be none.
pub fn cells(
    alloc: Global,
    tree: &Tree,
    node: u32,
    prop: &[u8],
) -> Result<Form<Items<Cell>>, AllocError>
    ensures cells { IfOk result (λ form. form ≡ cells_at tree.now node prop.now) }
    ensures below { IfOk result (λ form. IfIs form (AllByRecursion (IsCellBelow (length tree.now)))) }
{
    let form = match tree.cells(alloc, node, prop)? {
        Some(cells) => Form::Is(Items::from_vec(cells)),
        None => missing(tree, node, prop),
    };
    Ok(form)
}

/// The one cell of a property, as in `<&battery>` or `<7>`.
pub fn cell(alloc: Global, tree: &Tree, node: u32, prop: &[u8]) -> Result<Form<Cell>, AllocError>
    ensures { IfOk result (λ form. form ≡ cell_at tree.now node prop.now) }
{
    let form = match tree.cells(alloc, node, prop)? {
        Some(cells) => match only_cell(cells.as_slice()) {
            Some(cell) => Form::Is(cell),
            None => Form::Wrong,
        },
        None => missing(tree, node, prop),
    };
    Ok(form)
}

/// The first string of a property, all of whose parts have to be strings, as in `"core", "cpu"`.
pub fn first_string(
    alloc: Global,
    tree: &Tree,
    node: u32,
    prop: &[u8],
) -> Result<Form<Items<u8>>, AllocError>
    ensures { IfOk result (λ form. form ≡ first_string_at tree.now node prop.now) }
{
    let form = match tree.strings(alloc, node, prop)? {
        Some(strings) => match strings.into_iter().next() {
            Some(first) => Form::Is(Items::from_vec(first)),
            None => Form::Wrong,
        },
        None => missing(tree, node, prop),
    };
    Ok(form)
}

/// The form of a property that doesn't have the parts that are asked for.
fn missing<T>(tree: &Tree, node: u32, prop: &[u8]) -> Form<T>
    ensures { result ≡ missing (property_at tree.now node prop.now) }
{
    if tree.has(node, prop) {
        Form::Wrong
    } else {
        Form::Absent
    }
}

/// The number that is the only cell.
fn only_number(cells: &[Cell]) -> Option<u32>
    ensures { result ≡ only_number cells.now }
{
    match cells {
        [Cell::Num(n)] => Some(*n),
        _ => None,
    }
}

/// The only cell.
fn only_cell(cells: &[Cell]) -> Option<Cell>
    ensures { result ≡ only_cell cells.now }
{
    match cells {
        [cell] => Some(*cell),
        _ => None,
    }
}

/// The numbers that the cells are, unless one is a reference.
fn numbers_of(alloc: Global, cells: &[Cell]) -> Result<Option<Items<u32>>, AllocError>
    ensures { IfOk result (λ numbers. numbers ≡ numbers_of cells.now) }
{
    let mut numbers = Vec::with_capacity(alloc, cells.len())?;
    for cell in cells {
        match *cell {
            Cell::Num(n) => numbers.push(n)?,
            Cell::Node(_) => return Ok(None),
        }
    }
    Ok(Some(Items::from_vec(numbers)))
}
