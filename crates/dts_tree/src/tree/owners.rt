ghost use Rattle.std.specs.Prelude.{◌≡◌, ◌<◌, ◌^◌, ◌∷◌, ◌++◌, length, map, IfOk, OnOk};

use name_map::NameList;
use std::alloc::{AllocError, Global};

/// The owners of all entries, in their order.
pub(crate) fn owners_of<V>(alloc: Global, entries: &NameList<V>) -> Result<Vec<u32>, AllocError>
    ensures { IfOk result (λ owners. owners.items ≡ map (λ e. e.0.0) entries.now) }
{
    let mut owners = Vec::with_capacity(alloc, entries.len())?;
    put_owners(&mut owners, entries)?;
    Ok(owners)
}

/// The parents of all nodes, by their numbers. The root's is never looked at.
pub(crate) fn parents_of<V>(alloc: Global, children: &NameList<V>) -> Result<Vec<u32>, AllocError>
    requires { length children.now < 2 ^ 32 }
    ensures { IfOk result (λ parents. parents.items ≡ 0 ∷ map (λ e. e.0.0) children.now) }
{
    let mut parents = Vec::with_capacity(alloc, children.len() + 1)?;
    parents.push(0)?;
    put_owners(&mut parents, children)?;
    Ok(parents)
}

fn put_owners<V>(owners: &mut Vec<u32>, entries: &NameList<V>) -> Result<(), AllocError>
    ensures { OnOk result (owners.new.items ≡ owners.old.items ++ map (λ e. e.0.0) entries.now) }
{
    let count = entries.len();
    let mut place = 0;
    while place < count {
        owners.push(entries.owner(place))?;
        place += 1;
    }
    Ok(())
}
