ghost use Rattle.std.specs.Prelude.{◌≡◌, ◌≢◌, ℕ, ◌+◌, ◌<◌, ◌≤◌, [], IfOk, length, All, slice_index, slice_index_or, slice_set};
ghost use Rattle.reg_outside.specs.Count.{raised};
ghost use Rattle.reg_outside.specs.MemLab.{faults_under, list_under, room_under};
ghost use Rattle.reg_outside.specs.MemWire.{new_wire, AcceptsNext};

use crate::lab::Lab;
use crate::mem_wire::MemWire;
use crate::wire::Mask;
use item_list::Items;
use std::alloc::{AllocError, Global};
use std::marker::Model;
use std::mem;

/// How many numbers there are: every `u16` is one.
const NUMBERS: usize = 65_536;

/// A lab in memory, whose wires are made when it is made. It tells every list. It takes room at
/// once for the list and the count of each of the 65,536 numbers, so that `back` takes none.
#[derive(Drop)]
pub struct MemLab {
    alloc: Global,
    wires: Vec<MemWire>,
    faults: Vec<u64>,
    lists: Vec<Items<(u8, u8, Mask, Mask)>>,
}

impl Model for MemLab {
    ghost use Rattle.std.specs.Prelude.{◌≡◌, [], All, length, map};
    ghost use Rattle.reg_outside.specs.MemLab.{LabState};
    ghost use Rattle.reg_outside.specs.MemWire.{new_wire};

    ghost Value = { LabState };

    ghost view = { λ s. record { faults = s.faults.items; lists = s.lists.items; rooms = map (λ w. w.room) s.wires.items } };

    ghost invariant = { λ s. (length s.faults.items ≡ 65536) × (length s.lists.items ≡ 65536) × All (λ w. w ≡ new_wire w.room []) s.wires.items };
}

impl MemLab {
    /// The wires 0 to `workers`, each with room for so many updates, which is taken at once.
    pub fn new(alloc: Global, workers: u16, room: u32) -> Result<MemLab, AllocError>
        ensures no_fault { IfOk result (λ lab. (n : ℕ) → faults_under lab n ≡ 0) }
        ensures no_update { IfOk result (λ lab. (n : ℕ) → list_under lab n ≡ []) }
        ensures wires { IfOk result (λ lab. (n : ℕ) → n ≤ workers → room_under lab n ≡ room) }
        ensures no_more_wires { IfOk result (λ lab. (n : ℕ) → workers < n → room_under lab n ≡ 0) }
    {
        let wires = wires_with_room(alloc, usize::from(workers) + 1, room)?;
        let faults = zeros(alloc, NUMBERS)?;
        let lists = empty_lists(alloc, NUMBERS)?;
        Ok(MemLab {
            alloc,
            wires,
            faults,
            lists,
        })
    }

    /// What the wire accepted that came back last under this number; nothing where none did.
    pub fn list(&self, worker: u16) -> &[(u8, u8, Mask, Mask)]
        ensures { result.now ≡ list_under self.now worker }
    {
        self.lists[usize::from(worker)].as_slice()
    }
}

impl Lab for MemLab {
    type W = MemWire;

    ghost use Rattle.std.specs.Prelude.{◌≤◌, Some};

    ghost faults = { faults_under };

    ghost list = { λ lab n. Some (list_under lab n) };

    ghost gives_room = { λ lab number n. n ≤ room_under lab number };

    /// The wire of this number, if it was not handed out yet; else one without room.
    fn wire(&mut self, worker: u16) -> MemWire
        ensures given { result ≡ new_wire (room_under self.old worker) [] }
        ensures taken { self.new ≡ record self.old { rooms = slice_set self.old.rooms worker 0 } }
        ensures room { (n : ℕ) → n ≤ room_under self.old worker → AcceptsNext result n }
    {
        let at = usize::from(worker);
        let without_room = MemWire::without_room(self.alloc);
        if at < self.wires.len() {
            mem::replace(&mut self.wires[at], without_room)
        } else {
            without_room
        }
    }

    fn back(&mut self, worker: u16, wire: MemWire)
        ensures counted { faults_under self.new worker ≡ raised (faults_under self.old worker) wire.faults }
        ensures kept { list_under self.new worker ≡ wire.accepted }
        ensures other_counts_stay { (n : ℕ) → n ≢ worker → faults_under self.new n ≡ faults_under self.old n }
        ensures other_lists_stay { (n : ℕ) → n ≢ worker → list_under self.new n ≡ list_under self.old n }
        ensures rooms_stay { self.new.rooms ≡ self.old.rooms }
    {
        let at = usize::from(worker);
        let (accepted, faults) = wire.into_parts();
        self.faults[at] = self.faults[at].saturating_add(faults);
        self.lists[at] = Items::from_vec(accepted);
    }
}

/// So many wires, each with this room.
fn wires_with_room(alloc: Global, count: usize, room: u32) -> Result<Vec<MemWire>, AllocError>
    ensures count { IfOk result (λ v. length v.items ≡ count) }
    ensures each { IfOk result (λ v. All (λ w. w ≡ new_wire room []) v.items) }
{
    let mut wires = Vec::with_capacity(alloc, count)?;
    for _ in 0..count {
        wires.push(MemWire::new(alloc, room, Vec::new(alloc))?)?;
    }
    Ok(wires)
}

/// So many counts, each 0.
fn zeros(alloc: Global, count: usize) -> Result<Vec<u64>, AllocError>
    ensures count { IfOk result (λ v. length v.items ≡ count) }
    ensures each { IfOk result (λ v. (n : ℕ) → slice_index v.items n ≡ 0) }
{
    vec![in alloc; 0; count]
}

/// So many lists, each empty.
fn empty_lists(alloc: Global, count: usize) -> Result<Vec<Items<(u8, u8, Mask, Mask)>>, AllocError>
    ensures count { IfOk result (λ v. length v.items ≡ count) }
    ensures each { IfOk result (λ v. All (λ list. list ≡ []) v.items) }
{
    let mut lists = Vec::with_capacity(alloc, count)?;
    for _ in 0..count {
        lists.push(Items::new(alloc))?;
    }
    Ok(lists)
}
