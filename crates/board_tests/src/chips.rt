//! The chips' rails, with values worked out by hand.
use crate::same::assert_same;
use board::Desc;
use chip_regs::{Field, disjoint};
use pmic_tables::{ChipDesc, ChipRail, chip};
use std::alloc::{AllocError, Global};
use std::process::Abort;

/// What the data sheet of a chip says.
struct Sheet {
    name: &'static str,
    rails: &'static [Rail],
    values: &'static [Values],
    lists: &'static [Listed],
    fields: usize,
    places: &'static [Places],
    loads: &'static [Loads],
    /// The registers that aren't 0 after a reset.
    resets: &'static [(u8, u8)],
}

/// Node, supply, register and mask of the selector, dropout in µV, ramp in µV a µs, enable time in µs.
type Rail = (&'static str, &'static str, u8, u8, u32, u32, u32);

/// µV of the selector 0, a selector between with its µV, and µV of the last one, which is the mask.
type Values = (u32, u16, u32, u32);

/// Place of a rail, and its values in µV, all of them in order.
type Listed = (usize, &'static [u32]);

/// Register, mask and shift of a field.
type Place = (u8, u8, u8);

/// The fields of a rail: selector, on bit and mode; on bit and selector while suspended.
struct Places {
    rail: usize,
    selector: Place,
    enable: Place,
    modes: Option<Place>,
    suspend_enable: Place,
    suspend_selector: Place,
}

/// Place of a rail, and the greatest load of each of its modes.
type Loads = (usize, [u32; 4]);

/// The greatest loads of the modes of a buck, and of an ldo.
const BUCK: [u32; 4] = [3000000, 1000000, 50000, 5000];

const LDO: [u32; 4] = [0; 4];

const PM4: &Sheet = &Sheet {
    name: "example,pm4",
    rails: &[
        ("buck1", "vin1", 0x10, 0x7f, 0, 12500, 100),
        ("buck2", "vin2", 0x11, 0x7f, 0, 12500, 100),
        ("buck3", "vin3", 0x12, 0x1f, 0, 10000, 100),
        ("ldo1", "vinl1", 0x13, 0x07, 100000, 0, 50),
    ],
    values: &[
        (600000, 64, 1000000, 1393750),
        (600000, 49, 906250, 1393750),
        (800000, 16, 1600000, 3100000),
        (1200000, 5, 3000000, 3300000),
    ],
    lists: &[(
        3,
        &[
            1200000, 1500000, 1800000, 2500000, 2800000, 3000000, 3200000, 3300000,
        ],
    )],
    fields: 19,
    places: &[Places {
        rail: 2,
        selector: (0x12, 0x1f, 0),
        enable: (0x20, 0x04, 2),
        modes: Some((0x30, 0x30, 4)),
        suspend_enable: (0x21, 0x04, 2),
        suspend_selector: (0x42, 0x1f, 0),
    }],
    loads: &[(0, BUCK), (2, BUCK), (3, LDO)],
    resets: &[(0x10, 0x20), (0x11, 0x20), (0x30, 0x15)],
};

const PM8: &Sheet = &Sheet {
    name: "example,pm8",
    rails: &[
        ("buck1", "vin1", 0x10, 0x7f, 0, 10000, 100),
        ("buck2", "vin2", 0x11, 0x7f, 0, 10000, 100),
        ("buck3", "vin3", 0x12, 0x3f, 0, 10000, 100),
        ("buck4", "vin4", 0x13, 0x3f, 0, 10000, 100),
        ("ldo1", "vinl1", 0x14, 0x1f, 150000, 0, 50),
        ("ldo2", "vinl1", 0x15, 0x1f, 150000, 0, 50),
        ("ldo3", "vinl2", 0x16, 0x1f, 150000, 0, 50),
        ("ldo4", "vinl2", 0x17, 0x1f, 150000, 0, 50),
    ],
    values: &[
        (500000, 35, 850000, 1770000),
        (500000, 60, 1100000, 1770000),
        (800000, 12, 1100000, 2375000),
        (800000, 46, 1950000, 2375000),
        (900000, 3, 1200000, 4000000),
        (900000, 9, 1800000, 4000000),
        (900000, 19, 2800000, 4000000),
        (900000, 24, 3300000, 4000000),
    ],
    lists: &[],
    fields: 36,
    places: &[Places {
        rail: 7,
        selector: (0x17, 0x1f, 0),
        enable: (0x20, 0x80, 7),
        modes: None,
        suspend_enable: (0x21, 0x80, 7),
        suspend_selector: (0x47, 0x1f, 0),
    }],
    loads: &[(0, BUCK), (4, LDO)],
    resets: &[(0x30, 0x55)],
};

const PM12: &Sheet = &Sheet {
    name: "example,pm12",
    rails: &[
        ("buck1", "vin1", 0x10, 0x7f, 0, 12500, 100),
        ("buck2", "vin2", 0x11, 0x7f, 0, 12500, 100),
        ("buck3", "vin3", 0x12, 0x7f, 0, 12500, 100),
        ("buck4", "vin4", 0x13, 0x7f, 0, 12500, 100),
        ("ldo1", "vinl1", 0x14, 0x3f, 100000, 0, 50),
        ("ldo2", "vinl1", 0x15, 0x3f, 100000, 0, 50),
        ("ldo3", "vinl1", 0x16, 0x3f, 100000, 0, 50),
        ("ldo4", "vinl1", 0x17, 0x3f, 100000, 0, 50),
        ("ldo5", "vinl2", 0x18, 0x0f, 100000, 0, 50),
        ("ldo6", "vinl2", 0x19, 0x0f, 100000, 0, 50),
        ("ldo7", "vinl2", 0x1a, 0x0f, 100000, 0, 50),
        ("ldo8", "vinl2", 0x1b, 0x0f, 100000, 0, 50),
    ],
    values: &[
        (600000, 32, 1000000, 2975000),
        (600000, 63, 1387500, 2975000),
        (600000, 64, 1400000, 2975000),
        (600000, 84, 1900000, 2975000),
        (800000, 4, 1000000, 3950000),
        (800000, 14, 1500000, 3950000),
        (800000, 20, 1800000, 3950000),
        (800000, 24, 2000000, 3950000),
        (1000000, 5, 1850000, 3300000),
        (1000000, 7, 2500000, 3300000),
        (1000000, 12, 3000000, 3300000),
        (1000000, 2, 1200000, 3300000),
    ],
    lists: &[(8, VARIOUS), (9, VARIOUS), (10, VARIOUS), (11, VARIOUS)],
    fields: 52,
    places: &[
        Places {
            rail: 3,
            selector: (0x13, 0x7f, 0),
            enable: (0x20, 0x08, 3),
            modes: Some((0x30, 0xc0, 6)),
            suspend_enable: (0x22, 0x08, 3),
            suspend_selector: (0x43, 0x7f, 0),
        },
        Places {
            rail: 11,
            selector: (0x1b, 0x0f, 0),
            enable: (0x21, 0x08, 3),
            modes: None,
            suspend_enable: (0x23, 0x08, 3),
            suspend_selector: (0x4b, 0x0f, 0),
        },
    ],
    loads: &[(3, BUCK), (4, LDO)],
    resets: &[(0x30, 0x55)],
};

/// The values of the last four ldos of pm12.
const VARIOUS: &[u32] = &[
    1000000, 1100000, 1200000, 1500000, 1800000, 1850000, 2000000, 2500000, 2600000, 2700000,
    2800000, 2900000, 3000000, 3100000, 3200000, 3300000,
];

#[test]
fn known_chips(rt: HostRuntime) -> Result<(), AllocError> {
    for sheet in [PM4, PM8, PM12] {
        assert_known(&rt, rt.alloc(), sheet)?;
    }
    Ok(())
}

/// The chip is known, here at the place 15, and is as its data sheet says.
fn assert_known(rt: &impl Abort, alloc: Global, sheet: &Sheet) -> Result<(), AllocError> {
    let found = chip(alloc, sheet.name.as_bytes(), 15)?;
    let chip = found.expect(rt, "a chip of this name");
    assert_same(rt, sheet.name, chip.rails.len(), sheet.rails.len());
    assert_same(rt, sheet.name, sheet.values.len(), sheet.rails.len());
    assert_same(rt, sheet.name, chip.resets.as_slice(), sheet.resets);
    assert_rails(rt, &chip, sheet.rails);
    assert_values(rt, &chip, sheet.values);
    assert_lists(rt, &chip, sheet.lists);
    assert_places(rt, &chip, sheet.places);
    assert_loads(rt, &chip, sheet.loads);
    assert_fields_apart(rt, alloc, &chip, sheet.fields)
}

fn rail<'a>(rt: &impl Abort, chip: &'a ChipDesc, place: usize) -> &'a ChipRail {
    chip.rails.get(place).expect(rt, "a rail")
}

fn assert_rails(rt: &impl Abort, chip: &ChipDesc, rails: &[Rail]) {
    for (place, row) in rails.iter().enumerate() {
        assert_rail(rt, rail(rt, chip, place), *row);
    }
}

fn assert_rail(rt: &impl Abort, rail: &ChipRail, row: Rail) {
    let (node, supply, reg, mask, dropout, ramp, enable_time) = row;
    let desc = &rail.desc;
    assert_same(rt, "node", rail.node.as_str(), node);
    assert_same(rt, "supply", rail.supply.as_str(), supply);
    assert_field(rt, node, desc.selector, Some((reg, mask, 0)));
    let numbers = (desc.dropout, desc.ramp, desc.enable_time);
    assert_same(rt, node, numbers, (dropout, ramp, enable_time));
}

fn assert_values(rt: &impl Abort, chip: &ChipDesc, values: &[Values]) {
    for (place, row) in values.iter().enumerate() {
        assert_rail_values(rt, rail(rt, chip, place), *row);
    }
}

/// The rail has these values, and none behind the last number of its selector.
fn assert_rail_values(rt: &impl Abort, rail: &ChipRail, row: Values) {
    let (first, between, uv, last) = row;
    let selector = rail.desc.selector.expect(rt, "a selector");
    let end = u16::from(selector.mask);
    assert_value(rt, rail, 0, Some(first));
    assert_value(rt, rail, between, Some(uv));
    assert_value(rt, rail, end, Some(last));
    assert_value(rt, rail, end + 1, None);
}

fn assert_value(rt: &impl Abort, rail: &ChipRail, selector: u16, uv: Option<u32>) {
    let found = rail.desc.table.value(selector);
    assert_same(rt, "value", (selector, found), (selector, uv));
}

fn assert_lists(rt: &impl Abort, chip: &ChipDesc, lists: &[Listed]) {
    for &(place, uvs) in lists {
        assert_list(rt, rail(rt, chip, place), uvs);
    }
}

/// The rail has these values and no other.
fn assert_list(rt: &impl Abort, rail: &ChipRail, uvs: &[u32]) {
    let mut selector = 0;
    for &uv in uvs {
        assert_value(rt, rail, selector, Some(uv));
        assert!(rt; selector < 255);
        selector += 1;
    }
    assert_value(rt, rail, selector, None);
}

fn assert_places(rt: &impl Abort, chip: &ChipDesc, places: &[Places]) {
    for row in places {
        let desc = &rail(rt, chip, row.rail).desc;
        assert_field(rt, "selector", desc.selector, Some(row.selector));
        assert_field(rt, "enable", Some(desc.enable), Some(row.enable));
        assert_field(rt, "modes", desc.modes, row.modes);
        let enable = Some(row.suspend_enable);
        assert_field(rt, "suspend enable", desc.suspend_enable, enable);
        let selector = Some(row.suspend_selector);
        assert_field(rt, "suspend selector", desc.suspend_selector, selector);
    }
}

/// A field of the chip 15 at this place, or none.
fn assert_field(rt: &impl Abort, what: &str, field: Option<Field>, place: Option<Place>) {
    let found = match field {
        Some(field) => Some((field.chip, (field.reg, field.mask, field.shift))),
        None => None,
    };
    let expected = match place {
        Some(place) => Some((15, place)),
        None => None,
    };
    assert_same(rt, what, found, expected);
}

fn assert_loads(rt: &impl Abort, chip: &ChipDesc, loads: &[Loads]) {
    for &(place, greatest) in loads {
        let found = rail(rt, chip, place).desc.greatest;
        assert_same(rt, "loads", (place, found), (place, greatest));
    }
}

fn assert_fields_apart(
    rt: &impl Abort,
    alloc: Global,
    chip: &ChipDesc,
    count: usize,
) -> Result<(), AllocError> {
    let mut fields = Vec::new(alloc);
    for rail in chip.rails.as_slice() {
        push_fields(&mut fields, &rail.desc)?;
    }
    assert_same(rt, "fields", fields.len(), count);
    assert_same(rt, "disjoint", disjoint(&fields), Ok(()));
    Ok(())
}

fn push_fields(fields: &mut Vec<Field>, desc: &Desc) -> Result<(), AllocError> {
    fields.push(desc.enable)?;
    push_some(fields, desc.selector)?;
    push_some(fields, desc.modes)?;
    push_some(fields, desc.suspend_enable)?;
    push_some(fields, desc.suspend_selector)
}

fn push_some(fields: &mut Vec<Field>, field: Option<Field>) -> Result<(), AllocError> {
    if let Some(field) = field {
        fields.push(field)?;
    }
    Ok(())
}

/// Names that are nearly a chip's.
const OTHERS: &[&str] = &[
    "",
    "example,pm",
    "example,pm1",
    "example,pm40",
    "example,pm4 ",
    "Example,pm4",
    "pm4",
];

#[test]
fn other_names(rt: HostRuntime) -> Result<(), AllocError> {
    for &name in OTHERS {
        let known = chip(rt.alloc(), name.as_bytes(), 0)?.is_some();
        assert_same(&rt, "known", (name, known), (name, false));
    }
    Ok(())
}
