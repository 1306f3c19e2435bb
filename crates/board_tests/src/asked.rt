//! What rails' nodes of a small tree ask, whose expected values are read off its text by hand.
ghost use Rattle.std.specs.Prelude.{IfOk};

use crate::same::assert_same;
use bitflags::Flags;
use board::{Desc, Table};
use chip_regs::Field;
use constraints::{
    Prop, RailFault, StateNodes, constraints_of, constraints_with, couples, stated_spread,
    wrong_form,
};
use dts_lex::lex;
use dts_tree::{Tree, parse};
use load_modes::Mode;
use std::alloc::Global;
use std::test::Fail;
use voltage_table::VoltList;

/// In tree order: the root, buck1 (1), its node for mem (2), buck2 (3) and buck3 (4).
const TEXT: &[u8] = b"/dts-v1/;
/ {
    buck1 {
        regulator-name = \"vdd_cpu\";
        regulator-min-microvolt = <1200000>;
        regulator-max-microvolt = <1500000>;
        regulator-coupled-with = <&buck2>;
        regulator-coupled-max-spread = <100000>;
        regulator-allowed-modes = <1 4>;
        regulator-initial-mode = <4>;
        regulator-always-on;
        regulator-state-mem {
            regulator-suspend-microvolt = <1200000>;
            regulator-off-in-suspend;
        };
    };
    buck2: buck2 {
        regulator-min-microvolt = <1500000>;
    };
    buck3 {
        regulator-name;
    };
};
";

fn tree(alloc: Global) -> Result<Tree, Fail> {
    let tokens = lex(alloc, TEXT)?;
    let tree = parse(alloc, TEXT, tokens.as_slice())?;
    Ok(tree)
}

/// A rail of two values with modes.
fn desc() -> Result<Desc, Fail> {
    Ok(Desc {
        table: Table::List(VoltList::new(&[1200000, 1500000])?),
        selector: Some(field(0x10, 0x01)),
        enable: field(0x20, 0x01),
        modes: Some(field(0x30, 0x03)),
        greatest: [3000000, 1000000, 50000, 5000],
        suspend_enable: None,
        suspend_selector: Some(field(0x40, 0x01)),
        dropout: 0,
        ramp: 12500,
        enable_time: 100,
    })
}

fn field(reg: u8, mask: u8) -> Field {
    Field {
        chip: 0,
        reg,
        mask,
        shift: 0,
    }
}

#[test]
fn constraints_of_a_node(rt: HostRuntime) -> Result<(), Fail> {
    let tree = tree(rt.alloc())?;
    let desc = desc()?;
    let asked = constraints_of(rt.alloc(), &tree, 1, 0, &desc, false)?;
    assert_same(&rt, "bounds", asked.bounds, Some((1200000, 1500000)));
    assert_same(
        &rt,
        "flags",
        (asked.always_on, asked.boot_on),
        (true, false),
    );
    assert_same(&rt, "allowed modes", asked.allowed.bits(), 5);
    assert_same(&rt, "initial mode", asked.initial, Some(Mode::Idle));
    let [standby, mem, disk] = asked.sleeps;
    assert_same(
        &rt,
        "standby and disk",
        (standby.is_some(), disk.is_some()),
        (false, false),
    );
    let mem = mem.ok_or("mem")?;
    assert_same(&rt, "mem", (mem.on, mem.uv), (Some(false), Some(1200000)));
    Ok(())
}

#[test]
fn refused_nodes(rt: HostRuntime) -> Result<(), Fail> {
    let tree = tree(rt.alloc())?;
    let desc = desc()?;
    let one = matches!(
        constraints_of(rt.alloc(), &tree, 3, 7, &desc, false),
        Err(RailFault::OneBound(7))
    );
    assert_same(&rt, "one bound", one, true);
    let name = matches!(
        constraints_of(rt.alloc(), &tree, 4, 8, &desc, false),
        Err(RailFault::BadCells {
            rail: 8,
            prop: Prop::Name
        })
    );
    assert_same(&rt, "name", name, true);
    Ok(())
}

#[test]
fn parts_of_a_node(rt: HostRuntime) -> Result<(), Fail> {
    let tree = tree(rt.alloc())?;
    let desc = desc()?;
    let found = StateNodes::find(rt.alloc(), &tree)?;
    let states = found.below(1);
    assert_same(&rt, "state nodes", states, [None, Some(2), None]);
    assert_same(
        &rt,
        "form",
        wrong_form(rt.alloc(), &tree, 1, states, &desc)?,
        None,
    );
    let asked = constraints_with(rt.alloc(), &tree, 1, states, 0, &desc, false)?;
    assert_same(&rt, "greatest step", asked.max_step, 0);
    assert_same(
        &rt,
        "coupled rails",
        couples(rt.alloc(), &tree, 1)?.len(),
        1,
    );
    assert_same(
        &rt,
        "spread",
        stated_spread(rt.alloc(), &tree, 1)?,
        Some(100000),
    );
    assert_same(&rt, "name", Prop::MaxStep.name().len(), 28);
    Ok(())
}
