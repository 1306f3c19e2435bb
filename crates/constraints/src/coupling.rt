ghost use Rattle.std.specs.Prelude.{◌≡◌, length, IfOk};
ghost use Rattle.std.specs.List.{AllByRecursion};
ghost use Rattle.dts_tree.specs.Look.{IsCellBelow};
ghost use Rattle.constraints.specs.Coupling.{couples_at, are_equal, fit_couples, is_wrong_spread, stated_spread};

use crate::prop::Prop;
use dts_nodes::{Form, cells, numbers};
use dts_tree::{Cell, Tree};
use item_list::Items;
use std::alloc::{AllocError, Global};

/// The cells of a rail's node that name the rails which it is coupled with. Each node among them is one
/// of the tree.
pub fn couples(alloc: Global, tree: &Tree, node: u32) -> Result<Items<Cell>, AllocError>
    ensures couples { IfOk result (λ couples. couples ≡ couples_at tree.now node) }
    ensures below { IfOk result (AllByRecursion (IsCellBelow (length tree.now))) }
{
    match cells(alloc, tree, node, Prop::CoupledWith.name())? {
        Form::Absent => Ok(Items::new(alloc)),
        Form::Wrong => Ok(Items::new(alloc)),
        Form::Is(cells) => Ok(cells),
    }
}

/// The spread that a rail's node states, in µV: how far coupled rails may differ.
pub fn stated_spread(alloc: Global, tree: &Tree, node: u32) -> Result<Option<u32>, AllocError>
    ensures { IfOk result (λ spread. spread ≡ stated_spread tree.now node) }
{
    match numbers(alloc, tree, node, Prop::MaxSpread.name())? {
        Form::Absent => Ok(None),
        Form::Wrong => Ok(None),
        Form::Is(numbers) => Ok(numbers.get(0).copied()),
    }
}

/// The spreads of a node have another form than they should.
pub(crate) fn is_wrong_spread(alloc: Global, tree: &Tree, node: u32) -> Result<bool, AllocError>
    ensures { IfOk result (λ wrong. wrong ≡ is_wrong_spread tree.now node) }
{
    let couples = couples(alloc, tree, node)?.len();
    match numbers(alloc, tree, node, Prop::MaxSpread.name())? {
        Form::Absent => Ok(false),
        Form::Wrong => Ok(true),
        Form::Is(numbers) => Ok(!fit_couples(couples, numbers.as_slice())),
    }
}

/// The numbers are one spread, or one for each of so many coupled rails, all equal; without coupled rails
/// there may be none.
fn fit_couples(couples: usize, numbers: &[u32]) -> bool
    ensures { result ≡ fit_couples couples numbers.now }
{
    if couples == 0 {
        numbers.len() <= 1
    } else {
        numbers.len() == 1 || (numbers.len() == couples && are_equal(numbers))
    }
}

/// All numbers are as the first.
fn are_equal(numbers: &[u32]) -> bool
    ensures { result ≡ are_equal numbers.now }
{
    match numbers.first() {
        None => true,
        Some(first) => numbers.iter().all(|n| *first == *n),
    }
}
