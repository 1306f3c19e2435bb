ghost use Rattle.std.specs.Prelude.{◌≡◌, ℕ, ◌<◌, ◌≤◌, ◌↔◌, List, [], Option, length, take, IsOk, IfOk, IfSome, OnOk, OnErr};
ghost use Rattle.reg_outside.specs.Count.{Rose};
ghost use Rattle.reg_outside.specs.Told.{with_before};

use crate::failed::Failed;

/// Where bytes come from.
pub trait Source {
    /// The bytes that are left to be read, where the source tells them.
    ghost left: { Self → Option (List ℕ) };

    /// How often it has failed; stands still at the greatest `u64`.
    ghost faults: { Self → ℕ };

    /// No read fails, where the source can tell that.
    ghost never_fails: { Self → Type 0 } = { λ _. ⊥ };

    /// Moves the next bytes into the front of `buf` and says how many; 0 is the end of the input.
    /// A failed read takes nothing: a source that can lose bytes by one doesn't tell them.
    fn read(&mut self, buf: &mut [u8]) -> Result<usize, Failed>
        requires { 0 < length buf.old }
        ensures within { IfOk result (λ n. n ≤ length buf.new) }
        ensures moved { IfOk result (λ n. left self.old ≡ with_before (take n buf.new) (left self.new)) }
        ensures end { IfOk result (λ n. IfSome (left self.old) (λ bytes. (n ≡ 0) ↔ (bytes ≡ []))) }
        ensures failed_takes_nothing { OnErr result (left self.new ≡ left self.old) }
        ensures ok_counts_nothing { OnOk result (faults self.new ≡ faults self.old) }
        ensures failed_counts { OnErr result (Rose (faults self.old) (faults self.new)) }
        ensures sure { never_fails self.old → IsOk result }
        ensures stays_sure { never_fails self.old → never_fails self.new };
}
