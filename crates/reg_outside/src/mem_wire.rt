ghost use Rattle.std.specs.Prelude.{◌≡◌, ◌≤◌, ◌↔◌, ◌⊎◌, ◌∷◌, [], ◌++◌, length, IfOk, IsErr, OnOk, OnErr};
ghost use Rattle.reg_outside.specs.Count.{raised};
ghost use Rattle.reg_outside.specs.MemWire.{new_wire};
ghost use Rattle.reg_outside.specs.Plan.{RefusesNext, after_a_call};

use crate::failed::Failed;
use crate::schedule::Schedule;
use crate::wire::{Mask, Wire};
use std::alloc::{AllocError, Global};
use std::marker::Model;

/// A wire into memory with room for so many updates, of which some are refused. It tells what it
/// accepted.
#[derive(Drop)]
pub struct MemWire {
    accepted: Vec<(u8, u8, Mask, Mask)>,
    room: u32,
    updates: Schedule,
    faults: u64,
}

impl Model for MemWire {
    ghost use Rattle.std.specs.Prelude.{◌≤◌, length, vec_capacity};
    ghost use Rattle.reg_outside.specs.MemWire.{WireState};
    ghost use Rattle.std.specs.Coded.{codes};
    ghost use Rattle.reg_outside.specs.Plan.{plan_code};

    ghost Value = { WireState };

    ghost coded = { Prim.hlevel (codes, plan_code) };

    ghost view = { λ w. record { accepted = w.accepted.items; room = w.room; updates = w.updates; faults = w.faults } };

    ghost invariant = { λ w. (length w.accepted.items ≤ w.room) × (w.room ≤ vec_capacity w.accepted) };
}

impl MemWire {
    /// Room for so many updates, taken at once. The updates with the numbers in `fail`, from 1, are
    /// refused.
    pub fn new(alloc: Global, room: u32, fail: Vec<u32>) -> Result<MemWire, AllocError>
        ensures { IfOk result (λ wire. wire ≡ new_wire room fail.items) }
    {
        let accepted = Vec::with_capacity(alloc, room as usize)?;
        Ok(MemWire {
            accepted,
            room,
            updates: Schedule::new(fail),
            faults: 0,
        })
    }

    /// A wire that refuses every update, since it has no room. Takes no memory.
    pub(crate) fn without_room(alloc: Global) -> MemWire
        ensures { result ≡ new_wire 0 [] }
    {
        MemWire {
            accepted: Vec::new(alloc),
            room: 0,
            updates: Schedule::new(Vec::new(alloc)),
            faults: 0,
        }
    }

    /// What was accepted, and how many updates were refused.
    pub(crate) fn into_parts(self) -> (Vec<(u8, u8, Mask, Mask)>, u64)
        ensures accepted { result.0.items ≡ self.accepted }
        ensures faults { result.1 ≡ self.faults }
    {
        let MemWire {
            accepted,
            room: _,
            updates: _,
            faults,
        } = self;
        (accepted, faults)
    }
}

impl Wire for MemWire {
    ghost use Rattle.std.specs.Prelude.{Some};
    ghost use Rattle.reg_outside.specs.MemWire.{AcceptsNext};

    ghost accepted = { λ w. Some w.accepted };

    ghost faults = { λ w. w.faults };

    ghost accepts_next = { AcceptsNext };

    fn update(&mut self, chip: u8, reg: u8, mask: Mask, bits: Mask) -> Result<(), Failed>
        ensures refused { IsErr result ↔ (RefusesNext self.old.updates ⊎ (self.old.room ≤ length self.old.accepted)) }
        ensures ok { OnOk result (self.new ≡ record self.old { accepted = self.old.accepted ++ (chip, reg, mask, bits) ∷ []; updates = after_a_call self.old.updates }) }
        ensures err { OnErr result (self.new ≡ record self.old { updates = after_a_call self.old.updates; faults = raised self.old.faults 1 }) }
    {
        let refused = self.updates.refuses_next();
        if refused || self.accepted.len() >= self.room as usize {
            self.faults = self.faults.saturating_add(1);
            return Err(Failed);
        }
        self.accepted.push((chip, reg, mask, bits)).unwrap();
        Ok(())
    }
}
