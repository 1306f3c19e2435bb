//! Picks and refusals whose expected values are worked out by hand.
use crate::same::assert_same;
use linear_range::{LinearRange, Pick, RangeTable, TableFault, laws_of};
use std::process::Abort;
use std::test::Fail;

/// A range from the columns of a data sheet: µV of the first selector, first and last selector,
/// µV a step.
fn range(min: u32, min_sel: u16, max_sel: u16, step: u32) -> LinearRange {
    LinearRange {
        min,
        min_sel,
        max_sel,
        step,
    }
}

/// What is picked, as selector and µV.
type Picked = Option<(u16, u32)>;

/// µV, the pick from above, the pick from below.
type Case = (u32, Picked, Picked);

fn picked(pick: Option<Pick>) -> Picked {
    match pick {
        Some(pick) => Some((pick.sel, pick.uv)),
        None => None,
    }
}

fn assert_picks(rt: &impl Abort, table: &RangeTable<8>, cases: &[Case]) {
    for case in cases {
        let uv = case.0;
        let high = picked(table.selector_high(uv));
        let low = picked(table.selector_low(uv));
        assert_same(rt, "picks", (uv, high, low), *case);
    }
}

/// µV, the selector from above, the selector from below.
const BUCK: &[(u32, Option<u16>, Option<u16>)] = &[
    (599999, Some(0), None),
    (600000, Some(0), Some(0)),
    (900001, Some(49), Some(48)),
    (906250, Some(49), Some(49)),
    (1393750, Some(127), Some(127)),
    (1393751, None, Some(127)),
];

#[test]
fn one_range(rt: HostRuntime) {
    let buck = range(600000, 0, 127, 6250);
    assert!(rt; buck.fits());
    for &row in BUCK {
        let uv = row.0;
        let found = (uv, buck.selector_high(uv), buck.selector_low(uv));
        assert_same(&rt, "selectors", found, row);
    }
    assert_same(&rt, "value", buck.value(127), Some(1393750));
    assert_same(&rt, "value behind the end", buck.value(128), None);
}

/// The columns of a range, and whether it fits.
const FITS: &[((u32, u16, u16, u32), bool)] = &[
    ((4294967295, 7, 7, 0), true),
    ((4294967294, 0, 1, 1), true),
    ((4294967295, 0, 1, 1), false),
    ((0, 0, 65535, 65537), true),
    ((0, 0, 65535, 65538), false),
    ((0, 1, 0, 0), false),
];

#[test]
fn fitting(rt: HostRuntime) {
    for &row in FITS {
        let ((min, min_sel, max_sel, step), _) = row;
        let fits = range(min, min_sel, max_sel, step).fits();
        assert_same(&rt, "fits", (row.0, fits), row);
    }
}

const FLAT: &[Case] = &[
    (1799999, Some((4, 1800000)), None),
    (1800000, Some((4, 1800000)), Some((4, 1800000))),
    (1800001, None, Some((4, 1800000))),
];

/// At step 0 a range answers its last selector from above, and a table the first.
#[test]
fn flat_range(rt: HostRuntime) -> Result<(), Fail> {
    let fixed = range(1800000, 4, 6, 0);
    assert!(rt; fixed.fits());
    assert_same(&rt, "above", fixed.selector_high(1800000), Some(6));
    assert_same(&rt, "below", fixed.selector_low(1800001), Some(6));
    assert_picks(&rt, &RangeTable::new(&[fixed])?, FLAT);
    Ok(())
}

const TWO: &[Case] = &[
    (599999, Some((0, 600000)), None),
    (600001, Some((1, 612500)), Some((0, 600000))),
    (1387500, Some((63, 1387500)), Some((63, 1387500))),
    (1387501, Some((64, 1400000)), Some((63, 1387500))),
    (2975000, Some((127, 2975000)), Some((127, 2975000))),
    (2975001, None, Some((127, 2975000))),
];

/// A value between the two ranges picks from either.
#[test]
fn two_ranges(rt: HostRuntime) -> Result<(), Fail> {
    let table = RangeTable::<2>::new(&[
        range(600000, 0, 63, 12500),
        range(1400000, 64, 127, 25000),
    ])?;
    let wide = table.widen::<8>();
    assert_picks(&rt, &wide, TWO);
    laws_of(&wide);
    assert_same(&rt, "count", wide.count(), 128);
    assert_same(&rt, "value", wide.value(64), Some(1400000));
    assert_same(&rt, "value behind the end", wide.value(128), None);
    Ok(())
}

const MIXED: &[Case] = &[
    (999, Some((20, 1000)), None),
    (1001, Some((0, 1500)), Some((20, 1000))),
    (1500, Some((0, 1500)), Some((0, 1500))),
    (1501, Some((1, 2000)), Some((0, 1500))),
    (2000, Some((1, 2000)), Some((1, 2000))),
    (2001, Some((22, 3000)), Some((1, 2000))),
    (3001, None, Some((22, 3000))),
];

/// The second range lies between the values of the first; the third repeats a value of each.
#[test]
fn mixed_ranges(rt: HostRuntime) -> Result<(), Fail> {
    let ranges = [
        range(1000, 20, 22, 1000),
        range(1500, 10, 10, 7),
        range(1500, 0, 1, 500),
    ];
    assert_picks(&rt, &RangeTable::new(&ranges)?, MIXED);
    Ok(())
}

fn assert_refused(rt: &impl Abort, ranges: &[LinearRange], fault: TableFault) {
    let found = RangeTable::<3>::new(ranges).err();
    assert_same(rt, "fault", found, Some(fault));
}

#[test]
fn refusals(rt: HostRuntime) {
    let good = range(100, 0, 9, 10);
    let reversed = range(100, 20, 19, 10);
    let too_high = range(4294967295, 30, 31, 1);
    let low = range(0, 10, 12, 0);
    let last = range(0, 12, 13, 0);
    let two_for_one = RangeTable::<1>::new(&[good, low]).err();
    assert_same(&rt, "fault", two_for_one, Some(TableFault::TooMany(2)));
    assert_refused(&rt, &[reversed; 4], TableFault::TooMany(4));
    assert_refused(
        &rt,
        &[too_high, reversed, reversed],
        TableFault::Reversed(1),
    );
    assert_refused(&rt, &[good, good, too_high], TableFault::TooHigh(2));
    assert_refused(&rt, &[good, low, good], TableFault::Overlap(0, 2));
    assert_refused(&rt, &[good, low, last], TableFault::Overlap(1, 2));
}
