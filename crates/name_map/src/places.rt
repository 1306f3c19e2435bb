ghost use Rattle.std.specs.Prelude.{◌≡◌, ◌+◌, ◌≤◌, length, take, IfOk, OnOk, OnErr};
ghost use Rattle.std.specs.BTreeMap.{IsUnchanged};
ghost use Rattle.name_map.specs.Inside.Keys.{IsGrown};
ghost use Rattle.name_map.specs.Inside.Kept.{IsPut};

use crate::edges::Edges;
use crate::key::{Key, new_key};
use ordered_map::place_or;
use std::alloc::AllocError;
use std::collections::BTreeMap;

/// Where the entry of each short key stands.
pub(crate) type Places = BTreeMap<Key, u32>;

/// The place of the entry of an owner and a name, or this one, which it has from now on. At `Err`
/// nothing has changed.
pub(crate) fn put(
    edges: &mut Edges,
    places: &mut Places,
    owner: u32,
    name: &[u8],
    end: u32,
) -> Result<u32, AllocError>
    requires room { length edges.old + length name.now ≤ 4294967295 }
    ensures grown { OnOk result (IsGrown edges.old edges.new name.now) }
    ensures put { IfOk result (λ place. IsPut edges.new (owner, name.now) places.old places.new end place) }
    ensures edges { OnErr result (edges.new ≡ edges.old) }
    ensures places { OnErr result (IsUnchanged places.old places.new) }
{
    let before = edges.len();
    match put_key(edges, places, owner, name, end) {
        Ok(place) => Ok(place),
        Err(refused) => {
            edges.truncate(before);
            Err(refused)
        }
    }
}

/// The same, but at `Err` there may be more edges, behind those that were there.
fn put_key(
    edges: &mut Edges,
    places: &mut Places,
    owner: u32,
    name: &[u8],
    end: u32,
) -> Result<u32, AllocError>
    requires room { length edges.old + length name.now ≤ 4294967295 }
    ensures grown { OnOk result (IsGrown edges.old edges.new name.now) }
    ensures put { IfOk result (λ place. IsPut edges.new (owner, name.now) places.old places.new end place) }
    ensures front { take (length edges.old) edges.new ≡ edges.old }
    ensures places { OnErr result (IsUnchanged places.old places.new) }
{
    let key = new_key(edges, owner, name)?;
    place_or(places, key, end)
}
