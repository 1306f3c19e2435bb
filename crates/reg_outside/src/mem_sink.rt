ghost use Rattle.std.specs.Prelude.{◌≡◌, ◌≤◌, ◌-◌, ◌↔◌, ◌⊎◌, [], ◌++◌, length, min, take, IfOk, IsErr, OnErr};
ghost use Rattle.reg_outside.specs.Count.{raised};
ghost use Rattle.reg_outside.specs.Plan.{plan_of, RefusesNext, after_a_call};

use crate::failed::Failed;
use crate::schedule::Schedule;
use crate::sink::Sink;
use std::alloc::{AllocError, Global};
use std::marker::Model;

/// A sink into memory with room for so many bytes, of which some writes fail. It tells what it took.
#[derive(Drop)]
pub struct MemSink {
    bytes: Vec<u8>,
    room: u32,
    writes: Schedule,
    faults: u64,
}

impl Model for MemSink {
    ghost use Rattle.std.specs.Prelude.{◌≤◌, length, vec_capacity};
    ghost use Rattle.reg_outside.specs.MemSink.{SinkState};
    ghost use Rattle.std.specs.Coded.{codes};
    ghost use Rattle.reg_outside.specs.Plan.{plan_code};

    ghost Value = { SinkState };

    ghost coded = { Prim.hlevel (codes, plan_code) };

    ghost view = { λ s. record { bytes = s.bytes.items; room = s.room; writes = s.writes; faults = s.faults } };

    ghost invariant = { λ s. (length s.bytes.items ≤ s.room) × (s.room ≤ vec_capacity s.bytes) };
}

impl MemSink {
    /// Room for so many bytes, taken at once. The writes with the numbers in `fail`, from 1, fail.
    pub fn new(alloc: Global, room: u32, fail: Vec<u32>) -> Result<MemSink, AllocError>
        ensures { IfOk result (λ sink. sink ≡ record { bytes = []; room = room; writes = plan_of fail.items; faults = 0 }) }
    {
        let bytes = Vec::with_capacity(alloc, room as usize)?;
        Ok(MemSink {
            bytes,
            room,
            writes: Schedule::new(fail),
            faults: 0,
        })
    }

    /// What was taken so far.
    pub fn bytes(&self) -> &[u8]
        ensures { result.now ≡ self.now.bytes }
    {
        self.bytes.as_slice()
    }
}

impl Sink for MemSink {
    ghost use Rattle.std.specs.Prelude.{Some};
    ghost use Rattle.reg_outside.specs.MemSink.{TakesNext};

    ghost written = { λ s. Some s.bytes };

    ghost faults = { λ s. s.faults };

    ghost takes_next = { TakesNext };

    /// As many bytes of the piece as fit; where none fit it fails.
    fn write(&mut self, piece: &[u8]) -> Result<usize, Failed>
        ensures refused { IsErr result ↔ (RefusesNext self.old.writes ⊎ (self.old.room ≤ length self.old.bytes)) }
        ensures count { IfOk result (λ n. n ≡ min (length piece.now) (self.old.room - length self.old.bytes)) }
        ensures ok { IfOk result (λ n. self.new ≡ record self.old { bytes = self.old.bytes ++ take n piece.now; writes = after_a_call self.old.writes }) }
        ensures err { OnErr result (self.new ≡ record self.old { writes = after_a_call self.old.writes; faults = raised self.old.faults 1 }) }
    {
        let refused = self.writes.refuses_next();
        let left = self.room as usize - self.bytes.len();
        if refused || left == 0 {
            self.faults = self.faults.saturating_add(1);
            return Err(Failed);
        }
        let count = piece.len().min(left);
        self.bytes.extend_from_slice(&piece[..count]).unwrap();
        Ok(count)
    }
}
