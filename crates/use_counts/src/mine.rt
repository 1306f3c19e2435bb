ghost use Rattle.std.specs.Prelude.{◌≡◌, ℕ, ◌+◌, [], List, None, Some, bytes_eq, if◌then◌else◌, is_some, length, map, option_map, OnOk, OnErr};
ghost use Rattle.std.specs.List.{IsDistinct};
ghost use Rattle.use_counts.specs.Uses.{rail_named};

use board::{Handle, RailId};
use indexmap::IndexMap;
use std::alloc::{AllocError, Global};
use std::marker::Model;

/// The names that a worker has open, each with its rail, in no promised order. They are found by a
/// hash whose seed is fixed, which serves here since a worker has at most 64 names.
#[derive(Drop)]
pub struct Mine {
    names: IndexMap<Handle, RailId>,
}

impl Model for Mine {
    ghost use Rattle.std.specs.Prelude.{ℕ, List, map};

    ghost Value = { List (List ℕ × ℕ) };

    ghost use Rattle.use_counts.specs.Inside.Named.{named};

    ghost view = { λ m. named m.names };
}

impl Mine {
    /// No open names. Takes no memory.
    pub fn new(alloc: Global) -> Mine
        ensures { result ≡ [] }
    {
        Mine {
            names: IndexMap::new(alloc),
        }
    }

    /// How many names are open.
    pub fn len(&self) -> usize
        ensures len { result ≡ length self.now }
        ensures distinct { IsDistinct bytes_eq (map (λ entry. entry.0) self.now) }
    {
        self.names.len()
    }

    /// The rail of a name, where the name is open.
    pub fn rail_of(&self, handle: &Handle) -> Option<RailId>
        ensures { option_map (λ r. r.0) result ≡ rail_named self.now handle.now.bytes }
    {
        self.names.get(handle).copied()
    }

    /// The name is open from now on, on this rail. At `Err` nothing has changed.
    pub fn add(&mut self, handle: Handle, r: RailId) -> Result<(), AllocError>
        requires new { rail_named self.old handle.bytes ≡ None }
        ensures named { OnOk result ((name : List ℕ) → rail_named self.new name ≡ (if bytes_eq handle.bytes name then Some r.0 else rail_named self.old name)) }
        ensures more { OnOk result (length self.new ≡ length self.old + 1) }
        ensures err { OnErr result (self.new ≡ self.old) }
    {
        match self.names.insert(handle, r) {
            Ok(_) => Ok(()),
            Err(_) => Err(AllocError),
        }
    }

    /// The name isn't open from now on.
    pub fn remove(&mut self, handle: &Handle)
        ensures named { (name : List ℕ) → rail_named self.new name ≡ (if bytes_eq handle.now.bytes name then None else rail_named self.old name) }
        ensures fewer { length self.new + (if is_some (rail_named self.old handle.now.bytes) then 1 else 0) ≡ length self.old }
    {
        self.names.swap_remove(handle);
    }
}
