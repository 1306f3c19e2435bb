//! Which registers of a board keep its law, worked out by hand.
ghost use Rattle.std.specs.Prelude.{◌≡◌, IfSome, length};
ghost use Rattle.board.specs.Valid.{IsValid};

use crate::same::assert_same;
use board::{Board, Write};
use board_draft::{Drafted, draft};
use chip_regs::Regs;
use dts_lex::lex;
use dts_tree::parse;
use rail_law::{law_holds, write_keeps};
use std::alloc::{AllocError, Global};
use std::process::Abort;

/// Chip 0 has core and mem, on 600000 µV and 6250 µV for each selector, io, on 800000 µV and 50000 µV for each
/// selector up to 15 and then on 1600000 µV and 100000 µV more for each, and usb, on 1200000, 1500000, 1800000 µV
/// and more. Chip 1 has vbat, which feeds core. io feeds usb, which needs 100000 µV more there.
const TEXT: &[u8] = b"/dts-v1/;
/ {
    vbat: vbat {
        compatible = \"regulator-fixed\";
        regulator-min-microvolt = <4200000>;
        regulator-max-microvolt = <4200000>;
    };
    pmic {
        compatible = \"example,pm4\";
        vin1-supply = <&vbat>;
        vinl1-supply = <&io>;
        regulators {
            core: buck1 {
                regulator-min-microvolt = <800000>;
                regulator-max-microvolt = <1000000>;
                regulator-coupled-with = <&mem>;
                regulator-coupled-max-spread = <100000>;
            };
            mem: buck2 {
                regulator-min-microvolt = <800000>;
                regulator-max-microvolt = <1000000>;
                regulator-coupled-with = <&core>;
                regulator-coupled-max-spread = <100000>;
            };
            io: buck3 {
                regulator-min-microvolt = <1300000>;
                regulator-max-microvolt = <2000000>;
            };
            usb: ldo1 {
                regulator-min-microvolt = <1200000>;
                regulator-max-microvolt = <1500000>;
            };
        };
    };
};
";

fn read_board(alloc: Global) -> Option<Board>
    ensures { IfSome result IsValid }
{
    let tokens = lex(alloc, TEXT).ok()?;
    let tree = parse(alloc, TEXT, tokens.as_slice()).ok()?;
    let Drafted {
        board,
        resets: _resets,
    } = draft(alloc, &tree).ok()?;
    Some(board)
}

/// The board, which is read once more where an allocation was refused.
fn tied_board(rt: &impl Abort, alloc: Global) -> Board
    ensures { IsValid result }
{
    match read_board(alloc) {
        Some(board) => board,
        None => read_board(alloc).expect(rt, "the board"),
    }
}

/// The selectors of core, mem, io and usb, the on bits of these from bit 0 on, and the register with that of vbat.
type Bytes = [u8; 6];

const LOWEST: Bytes = [32, 32, 10, 0, 0x00, 0x00];

/// Each alone on one side of a bound, and on the other.
const LAWS: &[(Bytes, bool)] = &[
    (LOWEST, true),
    ([31, 32, 10, 0, 0x00, 0x00], false),
    ([32, 31, 10, 0, 0x00, 0x00], false),
    ([64, 64, 10, 0, 0x00, 0x00], true),
    ([65, 64, 10, 0, 0x00, 0x00], false),
    ([48, 32, 10, 0, 0x00, 0x00], true),
    ([49, 32, 10, 0, 0x00, 0x00], false),
    ([32, 48, 10, 0, 0x00, 0x00], true),
    ([32, 49, 10, 0, 0x00, 0x00], false),
    ([32, 32, 20, 0, 0x00, 0x00], true),
    ([32, 32, 21, 0, 0x00, 0x00], false),
    ([32, 32, 16, 1, 0x00, 0x00], true),
    ([32, 32, 15, 1, 0x00, 0x00], false),
    ([32, 32, 20, 2, 0x00, 0x00], false),
    ([32, 32, 10, 0, 0x0c, 0x00], true),
    ([32, 32, 10, 0, 0x08, 0x00], false),
    ([32, 32, 10, 0, 0x0e, 0x00], true),
    ([32, 32, 10, 0, 0x01, 0x00], false),
    ([32, 32, 10, 0, 0x01, 0x01], true),
    ([64, 48, 20, 1, 0x0f, 0x01], true),
];

/// The chip, the register, the mask and the bits of a write.
type Update = (u8, u8, u8, u8);

/// The registers, the write, and whether they keep the law after it.
const WRITES: &[(Bytes, Update, bool)] = &[
    (LOWEST, (0, 0x10, 0x7f, 48), true),
    (LOWEST, (0, 0x10, 0x7f, 49), false),
    (LOWEST, (0, 0x10, 0x0f, 49), true),
    (LOWEST, (0, 0x10, 0x00, 49), true),
    (LOWEST, (1, 0x10, 0x7f, 49), true),
    (LOWEST, (0, 0x14, 0x7f, 49), true),
    (LOWEST, (0, 0x12, 0x1f, 9), false),
    (LOWEST, (0, 0x13, 0x07, 1), false),
    (LOWEST, (0, 0x20, 0x08, 0x08), false),
    (LOWEST, (0, 0x20, 0x08, 0x04), true),
    (LOWEST, (0, 0x20, 0x0c, 0x0c), true),
    (LOWEST, (0, 0x20, 0x01, 0x01), false),
    (LOWEST, (1, 0x00, 0x01, 0x01), true),
    ([49, 32, 10, 0, 0x00, 0x00], (0, 0x11, 0x7f, 33), true),
    ([49, 32, 10, 0, 0x00, 0x00], (0, 0x12, 0x1f, 11), false),
    ([32, 32, 10, 0, 0x0c, 0x00], (0, 0x20, 0x04, 0x00), false),
    ([32, 32, 10, 0, 0x0c, 0x00], (0, 0x20, 0x0c, 0x00), true),
    ([32, 32, 10, 0, 0x01, 0x01], (1, 0x00, 0x01, 0x00), false),
];

fn set_bytes(rt: &impl Abort, regs: &mut Regs, bytes: Bytes)
    ensures { length regs.new ≡ 2 }
{
    assert!(rt; regs.chips() == 2);
    let [core, mem, io, usb, on, vbat] = bytes;
    regs.set_byte(0, 0x10, core);
    regs.set_byte(0, 0x11, mem);
    regs.set_byte(0, 0x12, io);
    regs.set_byte(0, 0x13, usb);
    regs.set_byte(0, 0x20, on);
    regs.set_byte(1, 0x00, vbat);
}

fn assert_law(rt: &impl Abort, board: &Board, regs: &mut Regs, row: &(Bytes, bool))
    requires { IsValid board.now }
{
    set_bytes(rt, regs, row.0);
    assert!(rt; board.chips == 2);
    assert_same(rt, "law", (row.0, law_holds(board, regs)), *row);
}

fn assert_write(rt: &impl Abort, board: &Board, regs: &mut Regs, row: &(Bytes, Update, bool))
    requires { IsValid board.now }
{
    set_bytes(rt, regs, row.0);
    assert!(rt; board.chips == 2);
    let (chip, reg, mask, bits) = row.1;
    let write = Write {
        chip,
        reg,
        mask,
        bits,
    };
    assert!(rt; chip < 2);
    let keeps = write_keeps(board, regs, &write);
    assert_same(rt, "write", (row.0, row.1, keeps), *row);
}

#[test]
fn a_board_with_ties(rt: HostRuntime) -> Result<(), AllocError> {
    let board = tied_board(&rt, rt.alloc());
    let mut regs = match Regs::new(rt.alloc(), board.chips) {
        Ok(regs) => regs,
        Err(_) => Regs::new(rt.alloc(), board.chips)?,
    };
    for row in LAWS {
        assert_law(&rt, &board, &mut regs, row);
    }
    for row in WRITES {
        assert_write(&rt, &board, &mut regs, row);
    }
    Ok(())
}
