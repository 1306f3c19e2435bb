use crate::same::assert_same;
use ramp_delay::{Times, time};

/// A change of a voltage, and how long it takes.
type Change = ((u32, u32, u32, u32), u32, u32, u32, u32);

/// The ramp, the settling time and the times up and down; the description's ramp; from, to; µs.
const CHANGES: &[Change] = &[
    ((0, 0, 0, 0), 12500, 800000, 906250, 9),
    ((0, 0, 0, 0), 12500, 800000, 993750, 16),
    ((0, 0, 0, 0), 12500, 800000, 850000, 4),
    ((0, 0, 0, 0), 10000, 1300000, 1900000, 60),
    ((0, 0, 0, 0), 10000, 1900000, 1300000, 60),
    ((0, 0, 0, 0), 12500, 800000, 800000, 0),
    ((6250, 70, 0, 0), 12500, 800000, 850000, 8),
    ((0, 70, 80, 90), 12500, 800000, 800001, 1),
    ((0, 70, 80, 90), 0, 800000, 850000, 70),
    ((0, 70, 80, 90), 0, 800000, 800000, 0),
    ((0, 0, 80, 90), 0, 800000, 850000, 80),
    ((0, 0, 80, 90), 0, 850000, 800000, 90),
    ((0, 0, 80, 0), 0, 850000, 800000, 0),
    ((1, 0, 0, 0), 0, 0, 4294967295, 4294967295),
];

fn times(ramp: u32, settle: u32, up: u32, down: u32) -> Times {
    Times {
        ramp,
        settle,
        up,
        down,
    }
}

#[test]
fn times_of_known_changes(rt: HostRuntime) {
    for &((ramp, settle, up, down), desc_ramp, from, to, delay) in CHANGES {
        let found = time(&times(ramp, settle, up, down), desc_ramp, from, to);
        assert_same(&rt, "µs", (from, to, found), (from, to, delay));
    }
    let none = Times::default();
    let found = (none.ramp, none.settle, none.up, none.down);
    assert_same(&rt, "default", found, (0, 0, 0, 0));
}
