ghost use Rattle.std.specs.Prelude.{◌≡◌, ◌↔◌, ◌++◌, drop, length, min, take, IfOk, IsErr, OnErr};
ghost use Rattle.reg_outside.specs.Count.{raised};
ghost use Rattle.reg_outside.specs.Plan.{plan_of, RefusesNext, after_a_call};

use crate::failed::Failed;
use crate::schedule::Schedule;
use crate::source::Source;
use std::marker::Model;

/// A source over bytes in memory, of which some reads fail. It tells what is left.
#[derive(Drop)]
pub struct MemSource {
    bytes: Vec<u8>,
    taken: usize,
    reads: Schedule,
    faults: u64,
}

impl Model for MemSource {
    ghost use Rattle.std.specs.Prelude.{◌≤◌, drop, length};
    ghost use Rattle.reg_outside.specs.MemSource.{SourceState};
    ghost use Rattle.std.specs.Coded.{codes};
    ghost use Rattle.reg_outside.specs.Plan.{plan_code};

    ghost Value = { SourceState };

    ghost coded = { Prim.hlevel (codes, plan_code) };

    ghost view = { λ s. record { left = drop s.taken s.bytes.items; reads = s.reads; faults = s.faults } };

    ghost invariant = { λ s. s.taken ≤ length s.bytes.items };
}

impl MemSource {
    /// These bytes, of which the reads with the numbers in `fail`, from 1, fail. Takes no memory.
    pub fn new(bytes: Vec<u8>, fail: Vec<u32>) -> MemSource
        ensures { result ≡ record { left = bytes.items; reads = plan_of fail.items; faults = 0 } }
    {
        MemSource {
            bytes,
            taken: 0,
            reads: Schedule::new(fail),
            faults: 0,
        }
    }
}

impl Source for MemSource {
    ghost use Rattle.std.specs.Prelude.{Some};
    ghost use Rattle.reg_outside.specs.Plan.{RefusesNone};

    ghost left = { λ s. Some s.left };

    ghost faults = { λ s. s.faults };

    ghost never_fails = { λ s. RefusesNone s.reads };

    /// As many bytes as are left and as `buf` has room for.
    fn read(&mut self, buf: &mut [u8]) -> Result<usize, Failed>
        ensures refused { IsErr result ↔ RefusesNext self.old.reads }
        ensures count { IfOk result (λ n. n ≡ min (length self.old.left) (length buf.old)) }
        ensures moved { IfOk result (λ n. buf.new ≡ take n self.old.left ++ drop n buf.old) }
        ensures ok { IfOk result (λ n. self.new ≡ record self.old { left = drop n self.old.left; reads = after_a_call self.old.reads }) }
        ensures err { OnErr result (self.new ≡ record self.old { reads = after_a_call self.old.reads; faults = raised self.old.faults 1 }) }
    {
        if self.reads.refuses_next() {
            self.faults = self.faults.saturating_add(1);
            return Err(Failed);
        }
        let left = &self.bytes[self.taken..];
        let count = left.len().min(buf.len());
        buf[..count].copy_from_slice(&left[..count]);
        self.taken += count;
        Ok(count)
    }
}
