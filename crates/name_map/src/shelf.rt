ghost use Rattle.std.specs.Prelude.{◌≡◌, [], ◌∷◌, ◌++◌, ◌-◌, ◌+◌, ◌<◌, ◌≤◌, length, take, slice_index_or, slice_range, OnOk, OnErr};
ghost use Rattle.name_map.specs.Inside.Listed.{bytes_in};
ghost use Rattle.name_map.specs.Inside.Shelved.{last_end, begin_of};

use std::alloc::{AllocError, Global};
use std::marker::Model;

/// Names one after another. Contracts see the list of the names. Behind the last there may be bytes of
/// one that was taken away.
#[derive(Drop)]
pub(crate) struct Shelf {
    bytes: Vec<u8>,
    ends: Vec<u32>,
}

impl Model for Shelf {
    ghost use Rattle.std.specs.Prelude.{List, ℕ, ◌≤◌, length};
    ghost use Rattle.name_map.specs.Inside.Listed.{bytes_in};
    ghost use Rattle.name_map.specs.Inside.Shelved.{names_from, last_end, Rises};

    ghost Value = { List (List ℕ) };

    ghost view = { λ s. names_from 0 s.ends.items s.bytes.items };

    ghost invariant = { λ s. Rises 0 s.ends.items × (last_end 0 s.ends.items ≤ length s.bytes.items) };
}

impl Shelf {
    /// No names. Takes no memory.
    pub(crate) fn new(alloc: Global) -> Shelf
        ensures { result ≡ [] }
    {
        Shelf {
            bytes: Vec::new(alloc),
            ends: Vec::new(alloc),
        }
    }

    /// Puts a name last. At `Err` nothing has changed.
    pub(crate) fn push(&mut self, name: &[u8]) -> Result<(), AllocError>
        requires room { bytes_in self.old + length name.now < 4294967296 }
        ensures ok { OnOk result (self.new ≡ self.old ++ name.now ∷ []) }
        ensures err { OnErr result (self.new ≡ self.old) }
    {
        let end = last_end(self.ends.as_slice());
        self.bytes.truncate(end);
        self.bytes.extend_from_slice(name)?;
        self.ends.push(self.bytes.len() as u32)?;
        Ok(())
    }

    /// Takes the last name away.
    pub(crate) fn pop(&mut self)
        ensures { self.new ≡ take (length self.old - 1) self.old }
    {
        self.ends.pop();
    }

    /// The name that was put as number `place`, from 0.
    pub(crate) fn get(&self, place: usize) -> &[u8]
        requires { place < length self.now }
        ensures { slice_index_or self.now place [] ≡ result.now }
    {
        let ends = self.ends.as_slice();
        part(
            self.bytes.as_slice(),
            begin_of(ends, place),
            self.ends[place] as usize,
        )
    }
}

/// Where the last name ends.
fn last_end(ends: &[u32]) -> usize
    ensures { result ≡ last_end 0 ends.now }
{
    match ends.last() {
        Some(end) => *end as usize,
        None => 0,
    }
}

/// Where the name at a place begins.
fn begin_of(ends: &[u32], place: usize) -> usize
    requires { place < length ends.now }
    ensures { result ≡ begin_of 0 ends.now place }
{
    if place == 0 {
        0
    } else {
        ends[place - 1] as usize
    }
}

fn part(bytes: &[u8], from: usize, to: usize) -> &[u8]
    requires order { from ≤ to }
    requires inside { to ≤ length bytes.now }
    ensures { result.now ≡ slice_range bytes.now from to }
{
    &bytes[from..to]
}
