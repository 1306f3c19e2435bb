ghost use Rattle.std.specs.Prelude.{◌<◌, length};

use dts_tree::{Cell, Tree};
use std::alloc::{AllocError, Global};

/// Appends each node.
pub(crate) fn write_nodes(line: &mut String, tree: &Tree) -> Result<(), AllocError> {
    for node in 0..tree.count() {
        write_node(line, tree, node)?;
    }
    Ok(())
}

/// Appends how many tokens there are, and nodes and properties of the tree.
pub(crate) fn write_count(line: &mut String, tree: &Tree, tokens: usize) -> Result<(), AllocError> {
    let nodes = tree.count();
    let properties = tree.property_count();
    write!(
        line,
        "tokens {tokens} nodes {nodes} properties {properties}"
    )
}

/// Appends a node as its name, its place and its parent.
fn write_node(line: &mut String, tree: &Tree, node: u32) -> Result<(), AllocError>
    requires { node < length tree.now }
{
    push_bytes(line, tree.name(node))?;
    let at = tree.at(node);
    match tree.parent(node) {
        Some(parent) => write!(line, "@{at}^{parent} "),
        None => write!(line, "@{at}^- "),
    }
}

/// Appends the way up from each node, and the names of its properties.
pub(crate) fn write_walks(line: &mut String, tree: &Tree) -> Result<(), AllocError> {
    for node in 0..tree.count() {
        write_way_up(line, tree, node)?;
        write_properties(line, tree, node)?;
        line.push_str("; ")?;
    }
    Ok(())
}

/// Appends the names from a node up to the root.
fn write_way_up(line: &mut String, tree: &Tree, from: u32) -> Result<(), AllocError>
    requires { from < length tree.now }
{
    push_bytes(line, tree.name(from))?;
    let mut node = from;
    while let Some(parent) = tree.parent(node) {
        line.push_str("<")?;
        push_bytes(line, tree.name(parent))?;
        node = parent;
    }
    Ok(())
}

/// Appends the names of a node's properties.
fn write_properties(line: &mut String, tree: &Tree, node: u32) -> Result<(), AllocError>
    requires { node < length tree.now }
{
    for prop in 0..tree.props(node) {
        line.push_str(":")?;
        push_bytes(line, tree.prop_name(node, prop))?;
    }
    Ok(())
}

/// Appends how many properties there are, whether the root has this one, and its cells and its strings.
pub(crate) fn write_values(
    alloc: Global,
    line: &mut String,
    tree: &Tree,
    property: &[u8],
) -> Result<(), AllocError> {
    prove!(tree.count() > 0);
    let properties = tree.property_count();
    let has = if tree.has(0, property) { "has " } else { "" };
    write!(line, "{properties} {has}")?;
    write_cells(alloc, line, tree, property)?;
    write_strings(alloc, line, tree, property)
}

fn write_cells(
    alloc: Global,
    line: &mut String,
    tree: &Tree,
    property: &[u8],
) -> Result<(), AllocError>
    requires { 0 < length tree.now }
{
    match tree.cells(alloc, 0, property)? {
        Some(cells) => {
            for cell in &cells {
                write_cell(line, tree, cell)?;
            }
            Ok(())
        }
        None => line.push_str("- "),
    }
}

fn write_cell(line: &mut String, tree: &Tree, cell: &Cell) -> Result<(), AllocError> {
    match *cell {
        Cell::Num(n) => write!(line, "{n}")?,
        Cell::Node(node) => write!(line, "&{node}")?,
    }
    match tree.target(cell) {
        Some(node) => write!(line, ">{node} "),
        None => line.push_str(" "),
    }
}

fn write_strings(
    alloc: Global,
    line: &mut String,
    tree: &Tree,
    property: &[u8],
) -> Result<(), AllocError>
    requires { 0 < length tree.now }
{
    match tree.strings(alloc, 0, property)? {
        Some(strings) => {
            for string in &strings {
                push_bytes(line, string.as_slice())?;
                line.push_str("|")?;
            }
            Ok(())
        }
        None => line.push_str("-"),
    }
}

/// Appends each byte as the character of its number.
pub(crate) fn push_bytes(line: &mut String, bytes: &[u8]) -> Result<(), AllocError> {
    for b in bytes {
        line.push(*b as char)?;
    }
    Ok(())
}
