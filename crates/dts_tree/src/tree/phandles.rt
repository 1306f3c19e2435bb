ghost use Rattle.std.specs.Prelude.{◌≡◌, ℕ, None, Some, nat_eq, IfOk, OnOk, if◌then◌else◌};
ghost use Rattle.std.specs.BTreeMap.{get};
ghost use Rattle.std.specs.Option.{option_eq, option_or};
ghost use Rattle.std.specs.Ordering.{nat_cmp};
ghost use Rattle.dts_tree.specs.Inside.Phandles.{first_with};

use crate::tree::nodes::Nodes;
use std::alloc::{AllocError, Global};
use std::collections::BTreeMap;

/// The first node with each phandle.
pub(crate) fn phandles_of(alloc: Global, nodes: &Nodes) -> Result<BTreeMap<u32, u32>, AllocError>
    ensures { IfOk result (λ phandles. (n : ℕ) → get nat_cmp phandles n ≡ first_with nodes.now n) }
{
    let mut phandles = BTreeMap::new(alloc);
    let count = nodes.count();
    for node in 0..count {
        let number = nodes.phandle(alloc, node)?;
        note(&mut phandles, number, node)?;
    }
    Ok(phandles)
}

/// The node has the number, where it has one, unless an earlier one has it.
fn note(phandles: &mut BTreeMap<u32, u32>, number: Option<u32>, node: u32) -> Result<(), AllocError>
    ensures { OnOk result ((n : ℕ) → get nat_cmp phandles.new n ≡ option_or (get nat_cmp phandles.old n) (if option_eq nat_eq number (Some n) then Some node else None)) }
{
    let Some(number) = number else {
        return Ok(());
    };
    if phandles.contains_key(&number) {
        return Ok(());
    }
    phandles.insert(number, node)?;
    Ok(())
}
