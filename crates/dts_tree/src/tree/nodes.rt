ghost use Rattle.std.specs.Prelude.{◌≡◌, ◌≢◌, ◌<◌, [], None, Some, Ok, Err, length, map, IfSome, IfOk, IfErr, MatchOption, slice_index_or, slice_range};
ghost use Rattle.std.specs.List.{AllByRecursion};
ghost use Rattle.std.specs.Option.{option_map};
ghost use Rattle.dts_tree.specs.Look.{bare, properties_at, property_at, property_count};
ghost use Rattle.dts_tree.specs.Inside.Below.{IsPieceBelow};
ghost use Rattle.dts_tree.specs.Inside.Made.{outcome_kept};
ghost use Rattle.dts_tree.specs.Inside.Pieces.{parts_of};
ghost use Rattle.dts_tree.specs.Inside.Stored.{store_of, Sound};

use crate::fault::TreeFault;
use crate::piece::{Piece, Place};
use crate::store::{Settled, Span};
use crate::tree::layout::{Layout, layout_of};
use crate::tree::listing::{Listing, listing_of};
use crate::tree::numbered::numbered;
use name_map::NameMap;
use std::alloc::Global;
use std::marker::Model;

/// The nodes of a tree in tree order, by the numbers that they have while the text is read.
pub(crate) struct Nodes {
    pub(crate) store: Settled,
    pub(crate) layout: Layout,
    pub(crate) pieces: Vec<Piece<u32>>,
    pub(crate) listing: Listing,
}

impl Drop for Nodes {
    /// Ends all parts, so that an owner's code has one call for it.
    fn drop(self) {
        let Nodes {
            store: _,
            layout: _,
            pieces: _,
            listing: _,
        } = self;
    }
}

impl Model for Nodes {
    ghost use Rattle.std.specs.Prelude.{List};
    ghost use Rattle.dts_tree.specs.Tree.{Node};
    ghost use Rattle.dts_tree.specs.Inside.Kept.{nodes_kept, Kept};

    ghost Value = { List Node };

    ghost view = { λ t. nodes_kept t.store t.pieces.items t.layout.order.items };

    ghost invariant = { λ t. Kept t.store t.pieces.items t.layout.order.items t.layout.ranks.items t.listing.places.items t.listing.starts.items };
}

impl Nodes {
    pub(crate) fn count(&self) -> u32
        ensures count { result ≡ length self.now }
        ensures root { 0 < result }
    {
        self.layout.order.len() as u32
    }

    pub(crate) fn property_count(&self) -> usize
        ensures { result ≡ property_count self.now }
    {
        self.listing.places.len()
    }

    pub(crate) fn name(&self, node: u32) -> &[u8]
        requires { node < length self.now }
        ensures { result.now ≡ (slice_index_or self.now node bare).name }
    {
        let number = self.layout.order[node as usize];
        if number == 0 {
            return b"";
        }
        self.store.children.name(number as usize - 1)
    }

    pub(crate) fn parent(&self, node: u32) -> Option<u32>
        requires { node < length self.now }
        ensures parent { result ≡ (slice_index_or self.now node bare).parent }
        ensures lower { IfSome result (λ parent. parent < node) }
    {
        let number = self.layout.order[node as usize];
        if number == 0 {
            return None;
        }
        let parent = self.store.children.owner(number as usize - 1);
        Some(self.layout.ranks[parent as usize])
    }

    pub(crate) fn at(&self, node: u32) -> u32
        requires { node < length self.now }
        ensures { result ≡ (slice_index_or self.now node bare).at }
    {
        let number = self.layout.order[node as usize];
        if number == 0 {
            return self.store.root_at.unwrap_or(0);
        }
        match self.store.children.value(number as usize - 1) {
            Some(opened) => opened.at,
            None => unreachable!(),
        }
    }

    pub(crate) fn props(&self, node: u32) -> usize
        requires { node < length self.now }
        ensures { result ≡ length (properties_at self.now node) }
    {
        let starts = self.listing.starts.as_slice();
        starts[node as usize + 1] - starts[node as usize]
    }

    pub(crate) fn prop_name(&self, node: u32, prop: usize) -> &[u8]
        requires node { node < length self.now }
        requires prop { prop < length (properties_at self.now node) }
        ensures { slice_index_or (map (λ p. p.name) (properties_at self.now node)) prop [] ≡ result.now }
    {
        let start = self.listing.starts[node as usize];
        let place = self.listing.places[start + prop];
        self.store.properties.list().name(place as usize)
    }

    /// The pieces of a property's value, where the node has the property.
    pub(crate) fn value(&self, node: u32, prop: &[u8]) -> Option<&[Piece<u32>]>
        ensures value { MatchOption result (property_at self.now node prop.now ≡ None) (λ v. option_map (λ p. p.parts) (property_at self.now node prop.now) ≡ Some (parts_of v.now)) }
        ensures below { IfSome result (λ v. AllByRecursion (IsPieceBelow (length self.now)) v.now) }
    {
        if node as usize >= self.layout.order.len() {
            return None;
        }
        let number = self.layout.order[node as usize];
        match self.store.properties.get(number, prop) {
            Some(span) => Some(pieces_in(self.pieces.as_slice(), span)),
            None => None,
        }
    }
}

/// The nodes of what was set, or the first label in a value that no node has.
pub(crate) fn nodes_of(
    alloc: Global,
    text: &[u8],
    store: Settled,
    labels: NameMap<u32>,
    pieces: Vec<Piece<Place>>,
) -> Result<Nodes, TreeFault>
    requires sound { Sound (store_of store labels) }
    ensures tree { IfOk result (λ nodes. outcome_kept text.now pieces.items (store_of store labels) ≡ Ok nodes) }
    ensures fault { IfErr result (λ fault. fault ≢ TreeFault.Memory → outcome_kept text.now pieces.items (store_of store labels) ≡ Err fault) }
{
    let layout = layout_of(alloc, &store.children)?;
    let pieces = numbered(alloc, text, &labels, layout.ranks.as_slice(), pieces)?;
    let count = layout.ranks.len();
    let listing = listing_of(
        alloc,
        store.properties.list(),
        layout.order.as_slice(),
        count,
    )?;
    Ok(Nodes {
        store,
        layout,
        pieces,
        listing,
    })
}

/// The pieces of a value, as far as there are any.
fn pieces_in<'a>(pieces: &'a [Piece<u32>], span: &Span) -> &'a [Piece<u32>]
    ensures { result.now ≡ slice_range pieces.now span.now.from span.now.to }
{
    let to = span.to.min(pieces.len());
    let from = span.from.min(to);
    &pieces[from..to]
}
