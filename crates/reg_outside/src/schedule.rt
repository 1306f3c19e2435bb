ghost use Rattle.std.specs.Prelude.{◌≡◌, ◌↔◌, IsTrue};
ghost use Rattle.std.specs.FinSet.{contains, from_list};
ghost use Rattle.std.specs.List.Sorted.{IsNonDecreasing};
ghost use Rattle.std.specs.Ordering.{nat_cmp};
ghost use Rattle.reg_outside.specs.Plan.{plan_of, RefusesNext, after_a_call, HasSmallNumbers};

use std::marker::Model;

/// Which of many calls are refused, by their numbers from 1. The number of calls so far stands
/// still at the greatest `u64`.
#[derive(Drop)]
pub(crate) struct Schedule {
    tried: u64,
    /// In order, so that a number is found by halving.
    refused: Vec<u32>,
}

impl Model for Schedule {
    ghost use Rattle.std.specs.Prelude.{◌^◌, ◌<◌, All};
    ghost use Rattle.std.specs.FinSet.{from_list};
    ghost use Rattle.std.specs.List.Sorted.{IsNonDecreasing};
    ghost use Rattle.reg_outside.specs.Plan.{Plan, plan_code};

    ghost Value = { Plan };

    ghost coded = { plan_code };

    ghost view = { λ s. record { tried = s.tried; numbers = from_list s.refused.items } };

    ghost invariant = { λ s. IsNonDecreasing s.refused.items × All (λ n. n < 2 ^ 32) s.refused.items };
}

impl Schedule {
    /// The calls with these numbers are refused. Takes no memory.
    pub(crate) fn new(mut refused: Vec<u32>) -> Schedule
        ensures plan { result ≡ plan_of refused.items }
        ensures small { HasSmallNumbers result }
    {
        refused.sort_unstable();
        Schedule { tried: 0, refused }
    }

    /// Counts a call, and says whether it is one of those that are refused.
    pub(crate) fn refuses_next(&mut self) -> bool
        ensures refused { IsTrue result ↔ RefusesNext self.old }
        ensures counted { self.new ≡ after_a_call self.old }
    {
        self.tried = self.tried.saturating_add(1);
        is_among(&self.refused, self.tried)
    }
}

/// Whether a number is one of these, which are in order.
fn is_among(numbers: &[u32], number: u64) -> bool
    requires { IsNonDecreasing numbers.now }
    ensures { result ≡ contains {R = nat_cmp} (from_list numbers.now) number }
{
    match u32::try_from(number) {
        Ok(number) => numbers.binary_search(&number).is_ok(),
        Err(_) => false,
    }
}
