ghost use Rattle.std.specs.Prelude.{◌≡◌, ℕ, ◌-◌, ◌<◌, ◌∷◌, [], List, Option, None, IsOk, IsErr, OnOk, OnErr};
ghost use Rattle.reg_outside.specs.Count.{Rose};
ghost use Rattle.reg_outside.specs.Told.{with_more};
ghost use Rattle.reg_outside.specs.Plan.{Plan, IsPlanned, ArePlannedSmall, next_plan};

use crate::failed::Failed;

/// The bits of one 8-bit register.
pub type Mask = u8;

/// The bus to the chips: what takes masked updates of 8-bit registers.
pub trait Wire {
    /// The updates accepted so far, each as (chip, register, mask, bits), where the wire tells them.
    ghost accepted: { Self → Option (List (ℕ × ℕ × ℕ × ℕ)) };

    /// How often it has refused an update; stands still at the greatest `u64`.
    ghost faults: { Self → ℕ };

    /// Which updates it is going to refuse, where the wire tells it.
    ghost plan: { Self → Option Plan } = { λ _. None };

    /// The next so many updates are sure to be accepted, where the wire can tell that.
    ghost accepts_next: { Self → ℕ → Type 0 } = { λ _ _. ⊥ };

    /// Sets the bits of the register under `mask` to those of `bits`, which stand at the mask's
    /// place, and leaves its other bits.
    fn update(&mut self, chip: u8, reg: u8, mask: Mask, bits: Mask) -> Result<(), Failed>
        ensures accepted { OnOk result (accepted self.new ≡ with_more (accepted self.old) ((chip, reg, mask, bits) ∷ [])) }
        ensures refused { OnErr result (accepted self.new ≡ accepted self.old) }
        ensures ok_counts_nothing { OnOk result (faults self.new ≡ faults self.old) }
        ensures refused_counts { OnErr result (Rose (faults self.old) (faults self.new)) }
        ensures planned { IsPlanned (plan self.old) → IsErr result }
        ensures tried { plan self.new ≡ next_plan (plan self.old) }
        ensures planned_small { ArePlannedSmall (plan self.old) }
        ensures sure { (n : ℕ) → accepts_next self.old n → 0 < n → IsOk result }
        ensures stays_sure { (n : ℕ) → accepts_next self.old n → accepts_next self.new (n - 1) };
}
