ghost use Rattle.std.specs.Prelude.{◌≡◌, is_some, length, map, IfOk, IfSome, slice_index_or};
ghost use Rattle.std.specs.List.{AllByRecursion};
ghost use Rattle.std.specs.Option.{option_map, option_and_then};
ghost use Rattle.dts_tree.specs.Look.{bare, cells_of, strings_of, property_at, phandle_of, IsCellBelow};

use crate::tree::nodes::Nodes;
use crate::tree::value::{cells_of, only_number, strings_of};
use crate::value::Cell;
use std::alloc::{AllocError, Global};

impl Nodes {
    pub(crate) fn has(&self, node: u32, prop: &[u8]) -> bool
        ensures { result ≡ is_some (property_at self.now node prop.now) }
    {
        self.value(node, prop).is_some()
    }

    pub(crate) fn cells(
        &self,
        alloc: Global,
        node: u32,
        prop: &[u8],
    ) -> Result<Option<Vec<Cell>>, AllocError>
        ensures cells { IfOk result (λ r. option_map (λ v. v.items) r ≡ option_and_then (λ p. cells_of p.parts) (property_at self.now node prop.now)) }
        ensures below { IfOk result (λ r. IfSome r (λ cells. AllByRecursion (IsCellBelow (length self.now)) cells.items)) }
    {
        match self.value(node, prop) {
            Some(pieces) => cells_of(alloc, pieces),
            None => Ok(None),
        }
    }

    pub(crate) fn strings(
        &self,
        alloc: Global,
        node: u32,
        prop: &[u8],
    ) -> Result<Option<Vec<Vec<u8>>>, AllocError>
        ensures { IfOk result (λ r. option_map (λ v. map (λ s. s.items) v.items) r ≡ option_and_then (λ p. strings_of p.parts) (property_at self.now node prop.now)) }
    {
        match self.value(node, prop) {
            Some(pieces) => strings_of(alloc, pieces),
            None => Ok(None),
        }
    }

    /// The number by which cells tell a node.
    pub(crate) fn phandle(&self, alloc: Global, node: u32) -> Result<Option<u32>, AllocError>
        ensures { IfOk result (λ r. r ≡ phandle_of (slice_index_or self.now node bare)) }
    {
        match self.cells(alloc, node, b"phandle".as_slice())? {
            Some(cells) => Ok(only_number(cells.as_slice())),
            None => Ok(None),
        }
    }
}
