ghost use Rattle.std.specs.Prelude.{◌≡◌, All, IfOk, codes};
ghost use Rattle.board.specs.Lone.{lone_graph};
ghost use Rattle.board.specs.Valid.{IsValid};
ghost use Rattle.plain_board.specs.Untied.{IsUntied};
ghost use Rattle.board_load.specs.Demo.{IsCore, IsDemo, IsDemoDraft, core_ranges, demo_resets};
ghost use Rattle.board_load.specs.Loading.{HasValueInside};
ghost use Rattle.board_load.specs.Registers.{NameChips};

use bitflags::Flags;
use board::laws::lone_is_valid;
use board::{Board, Constraints, Desc, Name, Rail, Table};
use board_draft::Drafted;
use board_graph::Graph;
use chip_regs::{Bits, Field};
use item_list::Items;
use linear_range::{LinearRange, RangeTable};
use load_modes::Modes;
use ramp_delay::Times;
use std::alloc::{AllocError, Global};

/// The voltages of `core`.
fn core_table() -> RangeTable<8>
    ensures { result ≡ core_ranges }
{
    let range = LinearRange {
        min: 600000,
        min_sel: 0,
        max_sel: 127,
        step: 6250,
    };
    RangeTable::new(&[range]).unwrap()
}

fn core_name() -> Name
    ensures { result.bytes ≡ codes "core" }
{
    Name::from("core").unwrap()
}

/// The rail `core`.
fn core() -> Rail
    ensures { IsCore result }
{
    Rail {
        name: core_name(),
        desc: Desc {
            table: Table::Ranges(core_table()),
            selector: Some(Field {
                chip: 0,
                reg: 0x10,
                mask: 0x7f,
                shift: 0,
            }),
            enable: Field {
                chip: 0,
                reg: 0x20,
                mask: 0x01,
                shift: 0,
            },
            modes: Some(Field {
                chip: 0,
                reg: 0x30,
                mask: 0x03,
                shift: 0,
            }),
            greatest: [3000000, 1000000, 50000, 5000],
            suspend_enable: Some(Field {
                chip: 0,
                reg: 0x21,
                mask: 0x01,
                shift: 0,
            }),
            suspend_selector: Some(Field {
                chip: 0,
                reg: 0x40,
                mask: 0x7f,
                shift: 0,
            }),
            dropout: 0,
            ramp: 12500,
            enable_time: 100,
        },
        limits: Constraints {
            bounds: Some((800000, 1000000)),
            always_on: false,
            boot_on: false,
            allow_load: false,
            system_load: 0,
            times: Times::default(),
            enable_ramp: 0,
            allowed: Modes::from_bits_retain(15),
            initial: None,
            max_step: 0,
            sleeps: [None; 3],
        },
        supply: None,
        group: 0,
        changeable: true,
        kept_uv: 800000,
    }
}

/// The registers of the chip that aren't 0 after a reset.
fn demo_resets(alloc: Global) -> Result<Items<(u8, u8, Bits)>, AllocError>
    ensures { IfOk result (λ resets. resets ≡ demo_resets) }
{
    let mut resets = Items::new(alloc);
    resets.push((0, 0x10, 0x20))?;
    resets.push((0, 0x11, 0x20))?;
    resets.push((0, 0x30, 0x15))?;
    Ok(resets)
}

/// The graph of one rail without a supply.
fn lone_graph(alloc: Global) -> Result<Graph, AllocError>
    ensures { IfOk result (λ graph. graph ≡ lone_graph) }
{
    let mut supply = Items::new(alloc);
    supply.push(None)?;
    let mut group = Items::new(alloc);
    group.push(0)?;
    let mut link = Items::new(alloc);
    link.push(false)?;
    Ok(Graph {
        supply,
        group,
        link,
    })
}

/// The board of the rail `core`.
fn demo_board(alloc: Global) -> Result<Board, AllocError>
    ensures { IfOk result IsDemo }
{
    let mut rails = Items::new(alloc);
    rails.push(core())?;
    let mut spread = Items::new(alloc);
    spread.push(0)?;
    let mut order = Items::new(alloc);
    order.push(0)?;
    Ok(Board {
        rails,
        spread,
        chips: 1,
        graph: lone_graph(alloc)?,
        order,
    })
}

/// The built-in board `demo`, one chip with the rail `core`, before its registers are looked at.
pub fn demo(alloc: Global) -> Result<Drafted, AllocError>
    ensures demo { IfOk result IsDemoDraft }
    ensures valid { IfOk result (λ drafted. IsValid drafted.board) }
    ensures inside { IfOk result (λ drafted. All HasValueInside drafted.board.rails) }
    ensures untied { IfOk result (λ drafted. IsUntied drafted.board) }
    ensures resets { IfOk result (λ drafted. NameChips drafted.board.chips drafted.resets) }
{
    let board = demo_board(alloc)?;
    lone_is_valid(&board);
    let resets = demo_resets(alloc)?;
    Ok(Drafted { board, resets })
}
