ghost use Rattle.std.specs.Prelude.{◌≡◌, ◌≢◌, ◌<◌, ◌≤◌, [], Ok, Err, is_some, length, map, IfOk, IfErr, IfSome, slice_index_or};
ghost use Rattle.std.specs.List.{AllByRecursion};
ghost use Rattle.std.specs.Option.{option_map, option_and_then};
ghost use Rattle.dts_tree.specs.Inside.Made.{outcome_kept};
ghost use Rattle.dts_tree.specs.Inside.Stored.{Sound};
ghost use Rattle.dts_tree.specs.Look.{bare, cells_of, strings_of, properties_at, property_at, property_count, target_of, IsCellBelow};

mod layout;
mod links;
mod listing;
mod nodes;
mod numbered;
mod order;
mod owners;
mod phandles;
mod value;
mod values;

use crate::fault::TreeFault;
use crate::piece::{Piece, Place};
use crate::store::Store;
use crate::tree::nodes::{Nodes, nodes_of};
use crate::tree::phandles::phandles_of;
use crate::value::Cell;
use std::alloc::{AllocError, Global};
use std::collections::BTreeMap;
use std::marker::Model;

/// The tree of a devicetree text: its nodes in tree order, each before its children, and their
/// properties. The root is node 0 and has the empty name.
pub struct Tree {
    nodes: Nodes,
    /// The first node with each phandle.
    phandles: BTreeMap<u32, u32>,
}

impl Drop for Tree {
    /// Ends all parts, so that an owner's code has one call for it.
    fn drop(self) {
        let Tree {
            nodes: _,
            phandles: _,
        } = self;
    }
}

impl Model for Tree {
    ghost use Rattle.std.specs.Prelude.{◌≡◌, ℕ, List};
    ghost use Rattle.std.specs.BTreeMap.{get};
    ghost use Rattle.std.specs.Ordering.{nat_cmp};
    ghost use Rattle.dts_tree.specs.Tree.{Node};
    ghost use Rattle.dts_tree.specs.Inside.Phandles.{first_with};

    ghost Value = { List Node };

    ghost view = { λ t. t.nodes };

    ghost invariant = { λ t. (n : ℕ) → get nat_cmp t.phandles n ≡ first_with t.nodes n };
}

impl Tree {
    /// How many nodes there are; the root is always there.
    pub fn count(&self) -> u32
        ensures count { result ≡ length self.now }
        ensures root { 0 < result }
    {
        self.nodes.count()
    }

    /// How many properties the nodes have.
    pub fn property_count(&self) -> usize
        ensures { result ≡ property_count self.now }
    {
        self.nodes.property_count()
    }

    /// The name of a node, which is empty for the root.
    pub fn name(&self, node: u32) -> &[u8]
        requires { node < length self.now }
        ensures { result.now ≡ (slice_index_or self.now node bare).name }
    {
        self.nodes.name(node)
    }

    /// The parent of a node, which has a lower number; None for the root.
    pub fn parent(&self, node: u32) -> Option<u32>
        requires { node < length self.now }
        ensures parent { result ≡ (slice_index_or self.now node bare).parent }
        ensures lower { IfSome result (λ parent. parent < node) }
    {
        self.nodes.parent(node)
    }

    /// Where the name of a node stands in its first body, as the index of a byte; for the root its
    /// first slash, or 0 where there is none.
    pub fn at(&self, node: u32) -> u32
        requires { node < length self.now }
        ensures { result ≡ (slice_index_or self.now node bare).at }
    {
        self.nodes.at(node)
    }

    /// How many properties a node has.
    pub fn props(&self, node: u32) -> usize
        requires { node < length self.now }
        ensures { result ≡ length (properties_at self.now node) }
    {
        self.nodes.props(node)
    }

    /// The name of a node's property number `prop`, from 0.
    pub fn prop_name(&self, node: u32, prop: usize) -> &[u8]
        requires node { node < length self.now }
        requires prop { prop < length (properties_at self.now node) }
        ensures { slice_index_or (map (λ p. p.name) (properties_at self.now node)) prop [] ≡ result.now }
    {
        self.nodes.prop_name(node, prop)
    }

    /// Whether a node has a property.
    pub fn has(&self, node: u32, prop: &[u8]) -> bool
        ensures { result ≡ is_some (property_at self.now node prop.now) }
    {
        self.nodes.has(node, prop)
    }

    /// The cells of a property, or None where the node doesn't have it or it has a part that isn't
    /// cells. Each node among them is one of the tree.
    pub fn cells(
        &self,
        alloc: Global,
        node: u32,
        prop: &[u8],
    ) -> Result<Option<Vec<Cell>>, AllocError>
        ensures cells { IfOk result (λ r. option_map (λ v. v.items) r ≡ option_and_then (λ p. cells_of p.parts) (property_at self.now node prop.now)) }
        ensures below { IfOk result (λ r. IfSome r (λ cells. AllByRecursion (IsCellBelow (length self.now)) cells.items)) }
    {
        self.nodes.cells(alloc, node, prop)
    }

    /// The strings of a property, or None where the node doesn't have it or it has a part that
    /// isn't a string.
    pub fn strings(
        &self,
        alloc: Global,
        node: u32,
        prop: &[u8],
    ) -> Result<Option<Vec<Vec<u8>>>, AllocError>
        ensures { IfOk result (λ r. option_map (λ v. map (λ s. s.items) v.items) r ≡ option_and_then (λ p. strings_of p.parts) (property_at self.now node prop.now)) }
    {
        self.nodes.strings(alloc, node, prop)
    }

    /// The node that a cell stands for: for a number the first in tree order that has it as its
    /// phandle. None where the tree has no such node.
    pub fn target(&self, cell: &Cell) -> Option<u32>
        ensures target { result ≡ target_of self.now cell.now }
        ensures inside { IfSome result (λ node. node < length self.now) }
    {
        match *cell {
            Cell::Node(node) => {
                if node < self.nodes.count() {
                    Some(node)
                } else {
                    None
                }
            }
            Cell::Num(n) => match self.phandles.get(&n) {
                Some(node) => Some(*node),
                None => None,
            },
        }
    }
}

/// The tree of what was set, or the first label in a value that no node has.
pub(crate) fn tree_of(
    alloc: Global,
    text: &[u8],
    store: Store,
    pieces: Vec<Piece<Place>>,
) -> Result<Tree, TreeFault>
    requires sound { Sound store }
    ensures tree { IfOk result (λ tree. outcome_kept text.now pieces.items store ≡ Ok tree) }
    ensures fault { IfErr result (λ fault. fault ≢ TreeFault.Memory → outcome_kept text.now pieces.items store ≡ Err fault) }
{
    let (store, labels) = store.settled();
    let nodes = nodes_of(alloc, text, store, labels, pieces)?;
    let phandles = phandles_of(alloc, &nodes)?;
    Ok(Tree { nodes, phandles })
}
