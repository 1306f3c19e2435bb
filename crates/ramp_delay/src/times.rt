ghost use Rattle.std.specs.Prelude.{◌≡◌, ◌<◌};
ghost use Rattle.std.specs.Int.{abs_diff};
ghost use Rattle.ramp_delay.specs.Times.{ramp_of, time_of, IsLeastTime};

/// What a rail's constraints say of the time that a change of its voltage takes. A 0 is as if the
/// property were not given.
#[derive(Clone, Copy, Default)]
pub struct Times {
    /// How fast the voltage moves, in µV a µs (`regulator-ramp-delay`).
    pub ramp: u32,
    /// The µs of any change, where no ramp is known (`regulator-settling-time-us`).
    pub settle: u32,
    /// The µs of a change up, where neither is known (`regulator-settling-time-up-us`).
    pub up: u32,
    /// The µs of a change down, likewise (`regulator-settling-time-down-us`).
    pub down: u32,
}

/// The µs that a change from `a` to `b`, in µV, takes. `desc_ramp` is the ramp of the rail's own
/// description, in µV a µs, where a 0 is none too.
///
/// From 800000 to 906250 µV at 12500 µV a µs it is 9 µs, since 106250 / 12500 is 8.5.
///
/// After `_regulator_set_voltage_time` of Linux's `drivers/regulator/core.c`, except that a
/// voltage which stays as it is takes no time, where Linux waits a settling time that is given.
#[tactic(auto, unfolding(crate::specs::Times::time_of))]
pub fn time(constraints: &Times, desc_ramp: u32, a: u32, b: u32) -> u32
    ensures exact { result ≡ time_of constraints.now desc_ramp a b }
    ensures unchanged { a ≡ b → result ≡ 0 }
    ensures ramped { 0 < ramp_of constraints.now desc_ramp → IsLeastTime (abs_diff a b) (ramp_of constraints.now desc_ramp) result }
{
    if a == b {
        return 0;
    }
    let ramp = ramp(constraints, desc_ramp);
    if ramp != 0 {
        a.abs_diff(b).div_ceil(ramp)
    } else if constraints.settle != 0 {
        constraints.settle
    } else if b > a {
        constraints.up
    } else {
        constraints.down
    }
}

fn ramp(constraints: &Times, desc_ramp: u32) -> u32
    ensures { result ≡ ramp_of constraints.now desc_ramp }
{
    if constraints.ramp != 0 {
        constraints.ramp
    } else {
        desc_ramp
    }
}
