ghost use Rattle.std.specs.Prelude.{◌≡◌, ◌<◌, ◌-◌, [], length, take, Some, if◌then◌else◌, IfSome, IfOk, OnOk, OnErr};
ghost use Rattle.std.specs.Option.{unwrap_or};
ghost use Rattle.std.specs.Ordering.{is_eq};
ghost use Rattle.std.specs.BTreeMap.{get, IsUnchanged};
ghost use Rattle.ordered_map.specs.Entries.{keep_entry, place_of};

use std::alloc::{AllocError, Global};
use std::collections::BTreeMap;
use std::marker::Model;

/// Contracts see the list of the entries. No call but `truncate` takes longer than the logarithm of
/// their number, whatever the keys are.
pub struct OrderedMap<K: Ord, V> {
    entries: Vec<(K, V)>,
    places: BTreeMap<K, u32>,
}

impl<K: Ord + Drop, V: Drop> Drop for OrderedMap<K, V> {
    /// Ends both parts, so that an owner's code has one call for it.
    fn drop(self) {
        let OrderedMap {
            entries: _,
            places: _,
        } = self;
    }
}

impl<K: Ord, V> Model for OrderedMap<K, V> {
    ghost use Rattle.std.specs.Prelude.{List};
    ghost use Rattle.ordered_map.specs.Entries.{Placed};

    ghost Value = { List (K × V) };

    ghost view = { λ m. m.entries.items };

    ghost invariant = { λ m. Placed K.eq K.cmp m.entries.items m.places };
}

impl<K: Ord, V> OrderedMap<K, V> {
    /// No entries. Takes no memory.
    pub fn new(alloc: Global) -> OrderedMap<K, V>
        ensures { result ≡ [] }
    {
        OrderedMap {
            entries: Vec::new(alloc),
            places: BTreeMap::new(alloc),
        }
    }

    pub fn len(&self) -> usize
        ensures { result ≡ length self.now }
    {
        self.entries.len()
    }

    /// As what number the key came, from 0, where it is there.
    pub fn place(&self, key: &K) -> Option<u32>
        ensures place { result ≡ place_of (K.eq key.now) self.now }
        ensures inside { IfSome result (λ place. place < length self.now) }
    {
        self.places.get(key).copied()
    }
}

impl<K: Ord + Copy + Drop, V: Drop> OrderedMap<K, V> {
    /// The number of the key's entry; a key that wasn't there comes last, with this value. At `Err`
    /// nothing has changed.
    pub fn keep(&mut self, key: K, value: V) -> Result<u32, AllocError>
        requires few { length self.old < 4294967296 }
        ensures ok { OnOk result (self.new ≡ keep_entry K.eq self.old key value) }
        ensures place { IfOk result (λ place. place_of (K.eq key) self.new ≡ Some place) }
        ensures inside { IfOk result (λ place. place < length self.new) }
        ensures err { OnErr result (self.new ≡ self.old) }
    {
        let end = self.entries.len();
        self.entries.push((key, value))?;
        match place_or(&mut self.places, key, end as u32) {
            Ok(place) => {
                if (place as usize) < end {
                    self.entries.truncate(end);
                }
                Ok(place)
            }
            Err(refused) => {
                self.entries.truncate(end);
                Err(refused)
            }
        }
    }

    /// Leaves so many entries at most, those that came first.
    pub fn truncate(&mut self, len: usize)
        ensures { self.new ≡ take len self.old }
    {
        while self.entries.len() > len {
            self.pop();
        }
    }

    /// Takes the last entry away.
    fn pop(&mut self)
        ensures { self.new ≡ take (length self.old - 1) self.old }
    {
        if let Some(entry) = self.entries.pop() {
            self.places.remove(&entry.0);
        }
    }
}

/// The place of a key, or this one, which it has from now on. At `Err` nothing has changed.
pub fn place_or<K: Ord + Drop>(
    places: &mut BTreeMap<K, u32>,
    key: K,
    end: u32,
) -> Result<u32, AllocError>
    ensures place { IfOk result (λ place. place ≡ unwrap_or (get K.cmp places.old key) end) }
    ensures found { OnOk result ((q : K) → get K.cmp places.new q
        ≡ (if is_eq (K.cmp key q) then Some (unwrap_or (get K.cmp places.old key) end) else get K.cmp places.old q)) }
    ensures err { OnErr result (IsUnchanged places.old places.new) }
{
    let place = *places.entry(key)?.or_insert(end);
    Ok(place)
}
