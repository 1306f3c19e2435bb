//! Picks within bounds, and what registers say, whose expected values are worked out by hand.
ghost use Rattle.std.specs.Prelude.{◌≡◌, ◌<◌, length, IfOk};
ghost use Rattle.board.specs.Desc.{ArePlaced};

use crate::same::assert_same;
use bitflags::Flags;
use board::{Board, Constraints, Desc, Name, Part, Rail, RailId, Table};
use board_graph::Graph;
use chip_regs::{Field, Regs};
use item_list::Items;
use linear_range::{LinearRange, Pick, RangeTable};
use load_modes::{Mode, Modes};
use ramp_delay::Times;
use std::alloc::Global;
use std::process::Abort;
use std::test::Fail;
use voltage_table::VoltList;

/// A rail on 600000 µV and 6250 µV more for each selector up to 127; without bounds it keeps the
/// value that it has.
fn core(bounds: Option<(u32, u32)>) -> Result<Rail, Fail>
    ensures { IfOk result (λ rail. ArePlaced 1 rail.desc) }
{
    let selector = field(0x10, 0x7f);
    let enable = field(0x20, 0x01);
    let range = LinearRange {
        min: 600000,
        min_sel: 0,
        max_sel: 127,
        step: 6250,
    };
    Ok(Rail {
        name: Name::from("core")?,
        desc: Desc {
            table: Table::Ranges(RangeTable::new(&[range])?),
            selector: Some(selector),
            enable,
            modes: Some(field(0x30, 0x03)),
            greatest: [0; 4],
            suspend_enable: None,
            suspend_selector: None,
            dropout: 0,
            ramp: 12500,
            enable_time: 100,
        },
        limits: Constraints {
            bounds,
            always_on: false,
            boot_on: false,
            allow_load: false,
            system_load: 0,
            times: Times::default(),
            enable_ramp: 0,
            allowed: Modes::empty(),
            initial: None,
            max_step: 0,
            sleeps: [None; 3],
        },
        supply: None,
        group: 0,
        changeable: bounds.is_some(),
        kept_uv: 850000,
    })
}

/// A field of the one chip, from bit 0 on.
fn field(reg: u8, mask: u8) -> Field
    ensures { result ≡ record { chip = 0; reg = reg; mask = mask; shift = 0 } }
{
    Field {
        chip: 0,
        reg,
        mask,
        shift: 0,
    }
}

/// What is picked, as selector and µV.
type Picked = Option<(u16, u32)>;

fn picked(pick: Option<Pick>) -> Picked {
    match pick {
        Some(pick) => Some((pick.sel, pick.uv)),
        None => None,
    }
}

#[test]
fn a_table(rt: HostRuntime) -> Result<(), Fail> {
    let rail = core(None)?;
    let table = &rail.desc.table;
    assert_same(&rt, "value", table.value(127), Some(1393750));
    assert_same(&rt, "value behind the end", table.value(128), None);
    assert_table_picks(&rt, table, 900001, Some((49, 906250)), Some((48, 900000)));
    assert_table_picks(&rt, table, 1393751, None, Some((127, 1393750)));
    assert_table_picks(&rt, table, 599999, Some((0, 600000)), None);
    assert_same(&rt, "count", table.count(), 128);
    Ok(())
}

fn assert_table_picks(rt: &impl Abort, table: &Table, uv: u32, above: Picked, below: Picked) {
    let high = picked(table.selector_high(uv));
    let low = picked(table.selector_low(uv));
    assert_same(rt, "picks", (uv, high, low), (uv, above, below));
}

#[test]
fn a_table_by_a_list(rt: HostRuntime) -> Result<(), Fail> {
    let table = Table::List(VoltList::new(&[5, 3, 5, 3])?);
    assert_same(&rt, "value", table.value(3), Some(3));
    assert_same(&rt, "value behind the end", table.value(4), None);
    assert_table_picks(&rt, &table, 4, Some((0, 5)), Some((1, 3)));
    assert_same(&rt, "count", table.count(), 4);
    Ok(())
}

/// µV, the pick from above, the pick from below.
const PICKS: &[(u32, Picked, Picked)] = &[
    (0, Some((32, 800000)), None),
    (799999, Some((32, 800000)), None),
    (800000, Some((32, 800000)), Some((32, 800000))),
    (900001, Some((49, 906250)), Some((48, 900000))),
    (1000000, Some((64, 1000000)), Some((64, 1000000))),
    (1000001, None, Some((64, 1000000))),
    (4294967295, None, Some((64, 1000000))),
];

/// The bounds of a request, and the least value within it.
const LEASTS: &[(u32, u32, Option<u32>)] = &[
    (900001, 950000, Some(906250)),
    (900001, 906249, None),
    (906250, 906250, Some(906250)),
    (990000, 2000000, Some(993750)),
    (1000001, 1100000, None),
    (1000000, 4294967295, Some(1000000)),
];

#[test]
fn a_rail_within_bounds(rt: HostRuntime) -> Result<(), Fail> {
    let rail = core(Some((800000, 1000000)))?;
    for &(uv, above, below) in PICKS {
        assert_rail_picks(&rt, &rail, uv, above, below);
    }
    for &(least, greatest, uv) in LEASTS {
        let found = rail.least_within(least, greatest);
        assert_same(
            &rt,
            "least",
            (least, greatest, found),
            (least, greatest, uv),
        );
    }
    Ok(())
}

fn assert_rail_picks(rt: &impl Abort, rail: &Rail, uv: u32, above: Picked, below: Picked) {
    let high = picked(rail.at_or_above(uv));
    let low = picked(rail.at_or_below(uv));
    assert_same(rt, "picks", (uv, high, low), (uv, above, below));
}

#[test]
fn a_rail_without_bounds(rt: HostRuntime) -> Result<(), Fail> {
    let rail = core(None)?;
    assert_rail_picks(&rt, &rail, 850000, Some((0, 850000)), Some((0, 850000)));
    assert_rail_picks(&rt, &rail, 850001, None, Some((0, 850000)));
    assert_rail_picks(&rt, &rail, 849999, Some((0, 850000)), None);
    assert_same(&rt, "least", rail.least_within(0, 849999), None);
    Ok(())
}

/// A board with the rail twice, first within bounds and then without.
fn two_rails(alloc: Global) -> Result<Board, Fail> {
    let mut rails = Items::new(alloc);
    rails.push(core(Some((800000, 1000000)))?)?;
    rails.push(core(None)?)?;
    Ok(Board {
        rails,
        spread: Items::new(alloc),
        chips: 1,
        graph: Graph {
            supply: Items::new(alloc),
            group: Items::new(alloc),
            link: Items::new(alloc),
        },
        order: Items::new(alloc),
    })
}

/// The place of a rail, µV, whether the rail may stand there.
const ALLOWED: &[(u16, u32, bool)] = &[
    (0, 906250, true),
    (0, 906251, false),
    (0, 1006250, false),
    (1, 850000, true),
    (1, 906250, false),
];

#[test]
fn rails_of_a_board(rt: HostRuntime) -> Result<(), Fail> {
    let board = two_rails(rt.alloc())?;
    assert_allowed(&rt, &board);
    assert_picks_at(&rt, &board, 0, Some((49, 906250)), Some((48, 900000)));
    assert_picks_at(&rt, &board, 1, None, Some((0, 850000)));
    assert_fields(&rt, &board);
    Ok(())
}

fn assert_allowed(rt: &impl Abort, board: &Board) {
    for &row in ALLOWED {
        let (place, uv, _) = row;
        let allowed = board.allowed(rail_at(rt, board, place), uv);
        assert_same(rt, "allowed", (place, uv, allowed), row);
    }
}

fn assert_fields(rt: &impl Abort, board: &Board) {
    let selector = Some((0x10, 0x7f));
    assert_field(rt, board, 0, Part::Selector, selector);
    let enable = Some((0x20, 0x01));
    assert_field(rt, board, 1, Part::Enable, enable);
    assert_field(rt, board, 1, Part::SuspendEnable, None);
}

fn rail_at(rt: &impl Abort, board: &Board, place: u16) -> RailId
    ensures { result.0 < length board.now.rails }
{
    assert!(rt; usize::from(place) < board.rails.len());
    RailId(place)
}

/// What 900001 µV picks at a rail.
fn assert_picks_at(rt: &impl Abort, board: &Board, place: u16, above: Picked, below: Picked) {
    let rail = rail_at(rt, board, place);
    let found = picked(board.at_or_above(rail, 900001));
    assert_same(rt, "above", (place, found), (place, above));
    let found = picked(board.at_or_below(rail, 900001));
    assert_same(rt, "below", (place, found), (place, below));
}

/// The register and the mask of a part of a rail.
fn assert_field(rt: &impl Abort, board: &Board, place: u16, part: Part, field: Option<(u8, u8)>) {
    let found = match board.field(rail_at(rt, board, place), part) {
        Some(field) => Some((field.reg, field.mask)),
        None => None,
    };
    assert_same(rt, "field", (place, found), (place, field));
}

/// The three registers, µV, whether the rail is on, its mode.
const SAID: &[(u8, u8, u8, u32, bool, Mode)] = &[
    (0x20, 0x00, 0x00, 800000, false, Mode::Fast),
    (0xb1, 0xfe, 0xfd, 906250, false, Mode::Normal),
    (0x7f, 0x01, 0x02, 1393750, true, Mode::Idle),
    (0x7f, 0x01, 0x07, 1393750, true, Mode::Standby),
];

#[test]
fn what_the_registers_say(rt: HostRuntime) -> Result<(), Fail> {
    let rail = core(None)?;
    let mut regs = Regs::new(rt.alloc(), 1)?;
    assert_said(&rt, &rail, &mut regs);
    Ok(())
}

fn assert_said(rt: &impl Abort, rail: &Rail, regs: &mut Regs)
    requires { ArePlaced 1 rail.now.desc }
{
    for &row in SAID {
        let (selector, on, mode, _, _, _) = row;
        assert!(rt; regs.chips() == 1);
        regs.set_byte(0, 0x10, selector);
        regs.set_byte(0, 0x20, on);
        regs.set_byte(0, 0x30, mode);
        assert!(rt; regs.chips() == 1);
        let found = (rail.uv(regs), rail.is_on(regs), rail.mode(regs));
        assert_same(
            rt,
            "said",
            (selector, on, mode, found.0, found.1, found.2),
            row,
        );
    }
}
