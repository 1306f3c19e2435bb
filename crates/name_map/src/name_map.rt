ghost use Rattle.std.specs.Prelude.{◌≡◌, ◌+◌, ◌<◌, [], Some, length, IfSome, IfOk, OnOk, OnErr};
ghost use Rattle.std.specs.Map.{lookup};
ghost use Rattle.std.specs.Option.{option_copied};
ghost use Rattle.name_map.specs.NameEntries.{same_name, size_of, place_of, insert_entry, keep_entry};

use crate::edges::Edges;
use crate::key::key_of;
use crate::name_list::NameList;
use crate::places::{Places, put};
use ordered_map::OrderedMap;
use std::alloc::{AllocError, Global};
use std::collections::BTreeMap;
use std::marker::Model;

/// A key is an owner and the bytes of a name. Contracts see the list of the entries. No call takes
/// longer than the length of the name and the logarithm of their number, whatever the names are.
pub struct NameMap<V> {
    edges: Edges,
    places: Places,
    list: NameList<V>,
}

impl<V: Drop> Drop for NameMap<V> {
    /// Ends all parts, so that an owner's code has one call for it.
    fn drop(self) {
        let NameMap {
            edges: _,
            places: _,
            list: _,
        } = self;
    }
}

impl<V> Model for NameMap<V> {
    ghost use Rattle.std.specs.Prelude.{List, ℕ};
    ghost use Rattle.name_map.specs.Inside.Kept.{Kept};

    ghost Value = { List ((ℕ × List ℕ) × V) };

    ghost view = { λ m. m.list };

    ghost invariant = { λ m. Kept m.edges m.places m.list };
}

impl<V> NameMap<V> {
    /// No entries. Takes no memory.
    pub fn new(alloc: Global) -> NameMap<V>
        ensures { result ≡ [] }
    {
        NameMap {
            edges: OrderedMap::new(alloc),
            places: BTreeMap::new(alloc),
            list: NameList::new(alloc),
        }
    }

    /// The entries.
    pub fn list(&self) -> &NameList<V>
        ensures { result.now ≡ self.now }
    {
        &self.list
    }

    /// As what number the key came, from 0, where it is there.
    pub fn place(&self, owner: u32, name: &[u8]) -> Option<u32>
        ensures place { result ≡ place_of (same_name (owner, name.now)) self.now }
        ensures inside { IfSome result (λ place. place < length self.now) }
    {
        match key_of(&self.edges, owner, name) {
            Some(key) => self.places.get(&key).copied(),
            None => None,
        }
    }

    /// The value of a key.
    pub fn get(&self, owner: u32, name: &[u8]) -> Option<&V>
        ensures { option_copied result ≡ lookup (same_name (owner, name.now)) self.now }
    {
        match self.place(owner, name) {
            Some(place) => self.list().value(place as usize),
            None => None,
        }
    }
}

impl<V: Copy + Drop> NameMap<V> {
    /// The key has the value from now on: in its place, or last where it wasn't there. At `Err`
    /// nothing has changed.
    pub fn insert(&mut self, owner: u32, name: &[u8], value: V) -> Result<(), AllocError>
        requires room { size_of self.old + length name.now < 4294967295 }
        ensures ok { OnOk result (self.new ≡ insert_entry same_name self.old (owner, name.now) value) }
        ensures err { OnErr result (self.new ≡ self.old) }
    {
        let place = self.keep(owner, name, value)?;
        self.list.put(place as usize, value);
        Ok(())
    }

    /// The number of the key's entry; a key that wasn't there comes last, with this value. At `Err`
    /// nothing has changed.
    pub fn keep(&mut self, owner: u32, name: &[u8], value: V) -> Result<u32, AllocError>
        requires room { size_of self.old + length name.now < 4294967295 }
        ensures ok { OnOk result (self.new ≡ keep_entry same_name self.old (owner, name.now) value) }
        ensures place { IfOk result (λ place. place_of (same_name (owner, name.now)) self.new ≡ Some place) }
        ensures inside { IfOk result (λ place. place < length self.new) }
        ensures err { OnErr result (self.new ≡ self.old) }
    {
        let end = self.list.len() as u32;
        self.list.push(owner, name, value)?;
        match put(&mut self.edges, &mut self.places, owner, name, end) {
            Ok(place) => {
                if place < end {
                    self.list.pop();
                }
                Ok(place)
            }
            Err(refused) => {
                self.list.pop();
                Err(refused)
            }
        }
    }

    /// The entries alone. What finds them by their keys ends.
    pub fn into_list(self) -> NameList<V>
        ensures { result ≡ self }
    {
        let NameMap {
            edges: _,
            places: _,
            list,
        } = self;
        list
    }
}
