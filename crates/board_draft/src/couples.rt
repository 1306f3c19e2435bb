ghost use Rattle.std.specs.Prelude.{◌≡◌, ◌≤◌, ◌||◌, map, length, nat_eq, IfOk};
ghost use Rattle.std.specs.List.{list_any, filter_map};
ghost use Rattle.std.specs.Option.{is_none, option_map};
ghost use Rattle.board_nodes.specs.Rails.{seen};
ghost use Rattle.board_graph.specs.Order.{is_taken};
ghost use Rattle.board_draft.specs.declared.fault.BoardFault.TheVariants.{NoCouple};
ghost use Rattle.board_draft.specs.Faults.{at_rail};
ghost use Rattle.board_draft.specs.Inside.Couples.{is_bad, first_bad};
ghost use Rattle.board_draft.specs.Links.{rail_of_cell, couples_of, named_by, names_badly, has_twice};

use crate::supply::rail_of_cell;
use board_nodes::RailNode;
use constraints::couples;
use dts_tree::{Cell, Tree};
use item_list::Items;
use std::alloc::{AllocError, Global};

/// The rails that each rail names as coupled, and the first rail that names what isn't another rail, or
/// one twice.
#[derive(Drop)]
pub(crate) struct Couples {
    pub(crate) named: Items<Items<u16>>,
    pub(crate) bad: Option<u16>,
}

/// What one rail names as coupled.
#[derive(Drop)]
struct Named {
    /// The rails among it, in order.
    rails: Items<u16>,
    /// Some of it is no rail.
    lacking: bool,
}

pub(crate) fn couples_of(
    alloc: Global,
    tree: &Tree,
    rails: &[RailNode],
) -> Result<Couples, AllocError>
    requires { length rails.now ≤ 64 }
    ensures named { IfOk result (λ couples. couples.named ≡ map (named_by tree.now (map seen rails.now)) (map seen rails.now)) }
    ensures bad { IfOk result (λ couples. at_rail (map seen rails.now) (names_badly tree.now (map seen rails.now)) NoCouple ≡ option_map (λ r. NoCouple r) couples.bad) }
{
    let mut named = Vec::with_capacity(alloc, rails.len())?;
    let mut bad = None;
    for (r, rail) in rails.iter().enumerate() {
        let couples = named_by(alloc, tree, rails, rail)?;
        bad = first_bad(bad, r as u16, &couples);
        named.push(couples.rails)?;
    }
    Ok(Couples {
        named: Items::from_vec(named),
        bad,
    })
}

/// The first rail that names badly, with one rail more.
fn first_bad(bad: Option<u16>, r: u16, named: &Named) -> Option<u16>
    ensures { result ≡ first_bad bad r named.now }
{
    if bad.is_none() && names_badly(r, named) {
        Some(r)
    } else {
        bad
    }
}

/// Whether rail `r` names what is no rail, itself, or a rail twice.
fn names_badly(r: u16, named: &Named) -> bool
    ensures { result ≡ is_bad r named.now }
{
    named.lacking || is_taken(named.rails.as_slice(), r) || has_twice(named.rails.as_slice())
}

/// Whether a number is in a list.
pub(crate) fn is_taken(numbers: &[u16], number: u16) -> bool
    ensures { result ≡ is_taken numbers.now number }
{
    numbers.iter().any(|other| number == *other)
}

/// Whether a number comes twice. There are 64 rails at most, so one of the first 65 numbers does, or there
/// are no more.
fn has_twice(numbers: &[u16]) -> bool
    ensures { result ≡ has_twice numbers.now }
{
    for (k, number) in numbers.iter().enumerate() {
        if is_taken(&numbers[k + 1..], *number) {
            return true;
        }
    }
    false
}

fn named_by(
    alloc: Global,
    tree: &Tree,
    rails: &[RailNode],
    rail: &RailNode,
) -> Result<Named, AllocError>
    requires { length rails.now ≤ 64 }
    ensures rails { IfOk result (λ named. named.rails ≡ named_by tree.now (map seen rails.now) (seen rail.now)) }
    ensures lacking { IfOk result (λ named. named.lacking ≡ list_any is_none (couples_of tree.now (map seen rails.now) (seen rail.now))) }
{
    let cells = couples(alloc, tree, rail.node)?;
    rails_among(alloc, tree, rails, cells.as_slice())
}

/// The rails for which cells stand.
fn rails_among(
    alloc: Global,
    tree: &Tree,
    rails: &[RailNode],
    cells: &[Cell],
) -> Result<Named, AllocError>
    requires { length rails.now ≤ 64 }
    ensures rails { IfOk result (λ named. named.rails ≡ filter_map (λ named. named) (map (rail_of_cell tree.now (map seen rails.now)) cells.now)) }
    ensures lacking { IfOk result (λ named. named.lacking ≡ list_any is_none (map (rail_of_cell tree.now (map seen rails.now)) cells.now)) }
{
    let mut among = Vec::new(alloc);
    let mut lacking = false;
    for cell in cells {
        match rail_of_cell(tree, rails, cell) {
            Some(rail) => among.push(rail)?,
            None => lacking = true,
        }
    }
    Ok(Named {
        rails: Items::from_vec(among),
        lacking,
    })
}
