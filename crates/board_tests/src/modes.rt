use crate::same::assert_same;
use bitflags::Flags;
use load_modes::{Mode, Modes, mode_for};

/// The greatest loads of the four modes, in µA.
const GREATEST: [u32; 4] = [3000000, 1000000, 50000, 5000];

const ALL: u8 = 15;

const NO_STANDBY: u8 = 7;

const FAST_ALONE: u8 = 1;

/// The bits of the modes allowed, the load, the mode.
const LOADS: &[(u8, u64, Option<Mode>)] = &[
    (ALL, 0, Some(Mode::Standby)),
    (ALL, 5000, Some(Mode::Standby)),
    (ALL, 5001, Some(Mode::Idle)),
    (NO_STANDBY, 0, Some(Mode::Idle)),
    (NO_STANDBY, 50000, Some(Mode::Idle)),
    (NO_STANDBY, 50001, Some(Mode::Normal)),
    (NO_STANDBY, 3000000, Some(Mode::Fast)),
    (NO_STANDBY, 3000001, None),
    (FAST_ALONE, 0, Some(Mode::Fast)),
    (0, 0, None),
    (ALL, 4294968295, None),
];

#[test]
fn modes_of_known_loads(rt: HostRuntime) {
    for &(bits, load, mode) in LOADS {
        let found = mode_for(&GREATEST, Modes::from_bits_retain(bits), load);
        assert_same(&rt, "mode", (bits, load, found), (bits, load, mode));
    }
    assert_same(&rt, "none", Modes::empty().bits(), 0);
    assert_same(&rt, "flag", Mode::Idle.flag().bits(), 4);
}
