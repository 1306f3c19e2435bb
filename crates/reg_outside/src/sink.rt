ghost use Rattle.std.specs.Prelude.{◌≡◌, ℕ, ◌-◌, ◌<◌, ◌≤◌, List, Option, length, take, IsOk, IfOk, OnOk, OnErr};
ghost use Rattle.reg_outside.specs.Count.{Rose};
ghost use Rattle.reg_outside.specs.Told.{with_more};

use crate::failed::Failed;

/// Where bytes go.
pub trait Sink {
    /// The bytes written so far, where the sink tells them.
    ghost written: { Self → Option (List ℕ) };

    /// How often it has failed; stands still at the greatest `u64`.
    ghost faults: { Self → ℕ };

    /// The next so many bytes are sure to be taken, in one write or in many, where the sink can tell that.
    ghost takes_next: { Self → ℕ → Type 0 } = { λ _ _. ⊥ };

    /// Writes bytes from the front of `piece`, at least one, and says how many.
    /// A sink that takes none has failed.
    fn write(&mut self, piece: &[u8]) -> Result<usize, Failed>
        requires { 0 < length piece.now }
        ensures some { IfOk result (λ n. 1 ≤ n) }
        ensures within { IfOk result (λ n. n ≤ length piece.now) }
        ensures appended { IfOk result (λ n. written self.new ≡ with_more (written self.old) (take n piece.now)) }
        ensures failed_writes_nothing { OnErr result (written self.new ≡ written self.old) }
        ensures ok_counts_nothing { OnOk result (faults self.new ≡ faults self.old) }
        ensures failed_counts { OnErr result (Rose (faults self.old) (faults self.new)) }
        ensures sure { (n : ℕ) → takes_next self.old n → 0 < n → IsOk result }
        ensures stays_sure { IfOk result (λ count. (n : ℕ) → takes_next self.old n → takes_next self.new (n - count)) };
}
