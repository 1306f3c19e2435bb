ghost use Rattle.std.specs.Prelude.{◌≡◌, ℕ, ◌+◌, ◌-◌, ◌<◌, ◌∷◌, [], OnOk, OnErr, IsOk, IsErr};
ghost use Rattle.reg_outside.specs.Count.{Rose};
ghost use Rattle.reg_outside.specs.Plan.{plan_of, RefusesNext, after_a_call, refused_of, HasSmallNumbers};
ghost use Rattle.reg_outside.specs.Planned.{count_of, PassesNext};
ghost use Rattle.reg_outside.specs.Told.{with_more};

use crate::failed::Failed;
use crate::schedule::Schedule;
use crate::wire::{Mask, Wire};
use std::marker::Model;

/// A wire of which some updates are refused and never reach it. It tells which.
#[derive(Drop)]
pub struct Planned<W> {
    inner: W,
    plan: Schedule,
    refusals: u64,
}

impl<W> Model for Planned<W> {
    ghost use Rattle.std.specs.Prelude.{◌≡◌};
    ghost use Rattle.std.specs.Coded.{codes};
    ghost use Rattle.reg_outside.specs.Plan.{plan_code, refused_of, HasSmallNumbers};
    ghost use Rattle.reg_outside.specs.Planned.{PlannedState};

    ghost Value = { PlannedState W };

    ghost coded = { Prim.hlevel (codes, plan_code, W.code) };

    ghost view = { λ p. record { inner = p.inner; plan = p.plan } };

    ghost invariant = { λ p. (p.refusals ≡ refused_of p.plan) × HasSmallNumbers p.plan };
}

impl<W: Wire> Planned<W> {
    /// Refuses the updates with the numbers in `fail`, from 1, and passes all others on.
    /// Takes no memory.
    pub fn new(inner: W, fail: Vec<u32>) -> Planned<W>
        ensures made { result ≡ record { inner = inner; plan = plan_of fail.items } }
        ensures small { HasSmallNumbers result.plan }
    {
        Planned {
            inner,
            plan: Schedule::new(fail),
            refusals: 0,
        }
    }

    /// The wire inside.
    pub fn into_inner(self) -> W
        ensures { result ≡ self.inner }
    {
        let Planned {
            inner,
            plan: _,
            refusals: _,
        } = self;
        inner
    }
}

impl<W: Wire> Wire for Planned<W> {
    ghost use Rattle.std.specs.Prelude.{Some};
    ghost use Rattle.reg_outside.specs.Planned.{count_of, PassesNext};

    ghost accepted = { λ p. W.accepted p.inner };

    ghost faults = { count_of W.faults };

    ghost plan = { λ p. Some p.plan };

    ghost accepts_next = { PassesNext W.accepts_next };

    /// A planned update is refused here, and any other is answered by the wire inside.
    fn update(&mut self, chip: u8, reg: u8, mask: Mask, bits: Mask) -> Result<(), Failed>
        ensures accepted { OnOk result (W.accepted self.new.inner ≡ with_more (W.accepted self.old.inner) ((chip, reg, mask, bits) ∷ [])) }
        ensures refused { OnErr result (W.accepted self.new.inner ≡ W.accepted self.old.inner) }
        ensures tried { self.new.plan ≡ after_a_call self.old.plan }

        // A planned update is refused, and never reaches the wire inside; any other does.
        ensures planned { RefusesNext self.old.plan → IsErr result }
        ensures not_passed_on { RefusesNext self.old.plan → self.new.inner ≡ self.old.inner }
        ensures own_refusal { RefusesNext self.old.plan → refused_of self.new.plan ≡ refused_of self.old.plan + 1 }
        ensures passed_on { ¬ RefusesNext self.old.plan → refused_of self.new.plan ≡ refused_of self.old.plan }
        ensures small { HasSmallNumbers self.old.plan }

        ensures ok_counts_nothing { OnOk result (count_of W.faults self.new ≡ count_of W.faults self.old) }
        ensures refused_counts { OnErr result (Rose (count_of W.faults self.old) (count_of W.faults self.new)) }
        ensures sure { (n : ℕ) → PassesNext W.accepts_next self.old n → 0 < n → IsOk result }
        ensures stays_sure { (n : ℕ) → PassesNext W.accepts_next self.old n → PassesNext W.accepts_next self.new (n - 1) }
    {
        if self.plan.refuses_next() {
            self.refusals = self.refusals.saturating_add(1);
            return Err(Failed);
        }
        self.inner.update(chip, reg, mask, bits)
    }
}
