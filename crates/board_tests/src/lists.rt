//! Picks and refusals whose expected values are worked out by hand.
ghost use Rattle.std.specs.Prelude.{◌≤◌};

use crate::same::assert_same;
use std::process::Abort;
use std::test::Fail;
use voltage_table::{ListFault, ListPick, VoltList, laws_of};

/// What is picked, as selector and µV.
type Picked = Option<(u16, u32)>;

const FIVE: Picked = Some((0, 5));

const THREE: Picked = Some((1, 3));

/// µV, the pick from above, the pick from below.
const PICKS: &[(u32, Picked, Picked)] = &[
    (2, THREE, None),
    (3, THREE, THREE),
    (4, FIVE, THREE),
    (5, FIVE, FIVE),
    (6, None, FIVE),
];

fn picked(pick: Option<ListPick>) -> Picked {
    match pick {
        Some(pick) => Some((pick.sel, pick.uv)),
        None => None,
    }
}

#[test]
fn repeated_values(rt: HostRuntime) -> Result<(), Fail> {
    let list = VoltList::<32>::new(&[5, 3, 5, 3])?;
    for &(uv, high, low) in PICKS {
        let found = (
            uv,
            picked(list.selector_high(uv)),
            picked(list.selector_low(uv)),
        );
        assert_same(&rt, "picks", found, (uv, high, low));
    }
    laws_of(&list);
    assert_same(&rt, "count", list.count(), 4);
    assert_same(&rt, "value", list.value(3), Some(3));
    assert_same(&rt, "value behind the end", list.value(4), None);
    Ok(())
}

fn assert_refused<const N: usize>(rt: &impl Abort, values: &[u32], fault: Option<ListFault>)
    requires { N ≤ 65536 }
{
    assert_same(rt, "fault", VoltList::<N>::new(values).err(), fault);
}

#[test]
fn refusals(rt: HostRuntime) {
    assert_refused::<0>(&rt, &[], Some(ListFault::Empty));
    assert_refused::<0>(&rt, &[0], Some(ListFault::TooMany(1)));
    assert_refused::<2>(&rt, &[1, 2, 3], Some(ListFault::TooMany(3)));
    assert_refused::<3>(&rt, &[1, 2, 3], None);
}
