ghost use Rattle.std.specs.Prelude.{ℕ, ◌<◌, ◌≤◌, ◌^◌, length, map, IfOk, slice_index, slice_index_or};
ghost use Rattle.dts_tree.specs.Inside.Links.{Linked};
ghost use Rattle.dts_tree.specs.Inside.Listing.{IsListing};

use crate::store::Span;
use crate::tree::links::{Links, links_of};
use crate::tree::owners::owners_of;
use name_map::NameList;
use std::alloc::{AllocError, Global};

/// The properties node by node in tree order: the places of their entries, and where those of each
/// node begin, the end of all last.
#[derive(Drop)]
pub(crate) struct Listing {
    pub(crate) places: Vec<u32>,
    pub(crate) starts: Vec<usize>,
}

/// The listing for nodes of these numbers, which are below `count`.
pub(crate) fn listing_of(
    alloc: Global,
    properties: &NameList<Span>,
    order: &[u32],
    count: usize,
) -> Result<Listing, AllocError>
    requires few { length properties.now ≤ 2 ^ 32 }
    requires owned { (j : ℕ) → j < length properties.now → slice_index_or (map (λ e. e.0.0) properties.now) j 0 < count }
    requires inside { (i : ℕ) → i < length order.now → slice_index order.now i < count }
    ensures { IfOk result (λ listing. IsListing (map (λ e. e.0.0) properties.now) order.now listing.places.items listing.starts.items) }
{
    let links = property_links(alloc, properties, count)?;
    let mut places = Vec::with_capacity(alloc, properties.len())?;
    let mut starts = Vec::with_capacity(alloc, order.len() + 1)?;
    starts.push(0)?;
    for number in order {
        let mut waiting = links.first[*number as usize];
        while let Some(place) = waiting {
            places.push(place)?;
            waiting = links.next[place as usize];
        }
        starts.push(places.len())?;
    }
    Ok(Listing { places, starts })
}

fn property_links(
    alloc: Global,
    properties: &NameList<Span>,
    count: usize,
) -> Result<Links, AllocError>
    requires few { length properties.now ≤ 2 ^ 32 }
    requires owned { (j : ℕ) → j < length properties.now → slice_index_or (map (λ e. e.0.0) properties.now) j 0 < count }
    ensures { IfOk result (λ links. Linked (map (λ e. e.0.0) properties.now) count links.first.items links.next.items 0) }
{
    let owners = owners_of(alloc, properties)?;
    links_of(alloc, owners.as_slice(), 0, count)
}
