ghost use Rattle.std.specs.Prelude.{◌≡◌, ℕ, List, ◌+◌, ◌-◌, [], ◌∷◌, ◌++◌, Some, ◌<◌, length, map, set, take, slice_get, slice_index_or, OnOk, OnErr};
ghost use Rattle.std.specs.Option.{option_copied};
ghost use Rattle.name_map.specs.NameEntries.{size_of};

use crate::shelf::Shelf;
use std::alloc::{AllocError, Global};
use std::marker::Model;

/// Entries by their numbers: an owner and the bytes of a name, and a value. Contracts see the list of
/// the entries.
pub struct NameList<V> {
    entries: Vec<(u32, V)>,
    names: Shelf,
}

impl<V: Drop> Drop for NameList<V> {
    /// Ends both parts, so that an owner's code has one call for it.
    fn drop(self) {
        let NameList {
            entries: _,
            names: _,
        } = self;
    }
}

impl<V> Model for NameList<V> {
    ghost use Rattle.std.specs.Prelude.{List, ℕ, ◌≡◌, length};
    ghost use Rattle.name_map.specs.Inside.Listed.{named};

    ghost Value = { List ((ℕ × List ℕ) × V) };

    ghost view = { λ l. named l.entries.items l.names };

    ghost invariant = { λ l. length l.names ≡ length l.entries.items };
}

impl<V> NameList<V> {
    /// No entries. Takes no memory.
    pub(crate) fn new(alloc: Global) -> NameList<V>
        ensures { result ≡ [] }
    {
        NameList {
            entries: Vec::new(alloc),
            names: Shelf::new(alloc),
        }
    }

    pub fn len(&self) -> usize
        ensures { result ≡ length self.now }
    {
        self.entries.len()
    }

    /// The owner of the entry that came as number `place`, from 0.
    pub fn owner(&self, place: usize) -> u32
        requires { place < length self.now }
        ensures { slice_get (map (λ e. e.0.0) self.now) place ≡ Some result }
    {
        self.entries[place].0
    }

    /// The name of the entry that came as number `place`, from 0.
    pub fn name(&self, place: usize) -> &[u8]
        requires { place < length self.now }
        ensures { slice_index_or (map (λ e. e.0.1) self.now) place [] ≡ result.now }
    {
        self.names.get(place)
    }

    /// The value of the entry that came as number `place`, from 0.
    pub fn value(&self, place: usize) -> Option<&V>
        ensures { option_copied result ≡ slice_get (map (λ e. e.1) self.now) place }
    {
        match self.entries.get(place) {
            Some(entry) => Some(&entry.1),
            None => None,
        }
    }
}

impl<V: Drop> NameList<V> {
    /// Puts an entry last. At `Err` nothing has changed.
    pub(crate) fn push(&mut self, owner: u32, name: &[u8], value: V) -> Result<(), AllocError>
        requires room { size_of self.old + length name.now < 4294967295 }
        ensures ok { OnOk result (self.new ≡ self.old ++ ((owner, name.now), value) ∷ []) }
        ensures err { OnErr result (self.new ≡ self.old) }
    {
        self.entries.push((owner, value))?;
        match self.names.push(name) {
            Ok(()) => Ok(()),
            Err(refused) => {
                self.entries.pop();
                Err(refused)
            }
        }
    }

    /// Takes the last entry away.
    pub(crate) fn pop(&mut self)
        ensures { self.new ≡ take (length self.old - 1) self.old }
    {
        self.entries.pop();
        self.names.pop();
    }

    /// Puts another value in the entry that came as number `place`, from 0.
    pub(crate) fn put(&mut self, place: usize, value: V)
        requires { place < length self.old }
        ensures { (e : (ℕ × List ℕ) × V) → self.new ≡ set self.old place ((slice_index_or self.old place e).0, value) }
    {
        self.entries[place].1 = value;
    }
}
