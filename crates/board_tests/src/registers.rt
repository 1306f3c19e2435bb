//! Fields and their registers, with bytes worked out by hand.
use crate::same::assert_same;
use chip_regs::{Address, Clash, Field, REGISTERS, Regs, WIDTH, disjoint, laws};
use std::process::Abort;
use std::test::Fail;

fn field(chip: u8, reg: u8, mask: u8, shift: u8) -> Field {
    Field {
        chip,
        reg,
        mask,
        shift,
    }
}

/// The last register of a chip.
const LAST: Address = (REGISTERS - 1) as Address;

/// Mask, shift, whether they make a field.
const MASKS: &[(u8, u8, bool)] = &[
    (0x01, 0, true),
    (0x7f, 0, true),
    (0x70, 4, true),
    (0x80, 7, true),
    (0xff, 0, true),
    (0x00, 0, false),
    (0x00, WIDTH as u8, false),
    (0x70, 3, false),
    (0x70, 5, false),
    (0x50, 4, false),
    (0x80, u8::MAX, false),
];

#[test]
fn masks_that_are_a_run(rt: HostRuntime) {
    for &row in MASKS {
        let (mask, shift, _) = row;
        let fits = field(0, 0, mask, shift).fits();
        assert_same(&rt, "a run", (mask, shift, fits), row);
    }
}

/// The modes of three rails, two bits each: normal for all. Mask, shift, number, the register after it is put.
const PUTS: &[(u8, u8, u8, u8)] = &[
    (0x03, 0, 1, 0x15),
    (0x0c, 2, 3, 0x1d),
    (0x30, 4, 0, 0x0d),
    (0xc0, 6, 2, 0x8d),
];

#[test]
fn fields_of_a_chip(rt: HostRuntime) -> Result<(), Fail> {
    let mut regs = Regs::new(rt.alloc(), 2)?;
    assert_puts(&rt, &mut regs);
    Ok(())
}

fn assert_puts(rt: &impl Abort, regs: &mut Regs) {
    assert!(rt; regs.chips() == 2);
    assert_same(rt, "byte", regs.byte(1, LAST), 0);
    regs.set_byte(1, 0x30, 0x15);
    for &(mask, shift, number, byte) in PUTS {
        assert_put(rt, regs, &field(1, 0x30, mask, shift), number);
        assert!(rt; regs.chips() == 2);
        assert_same(rt, "put", (shift, regs.byte(1, 0x30)), (shift, byte));
    }
    assert!(rt; regs.chips() == 2);
    assert_same(rt, "other chip", regs.byte(0, 0x30), 0);
}

fn assert_put(rt: &impl Abort, regs: &mut Regs, field: &Field, number: u8) {
    assert!(rt; field.fits());
    assert!(rt; field.chip < 2);
    assert!(rt; regs.chips() == 2);
    assert!(rt; number <= field.mask >> field.shift);
    regs.put(field, number);
    assert_same(rt, "get", regs.get(field), number);
}

fn assert_disjoint(rt: &impl Abort, fields: &[Field], expected: Result<(), Clash>) {
    assert_same(rt, "disjoint", disjoint(fields), expected);
}

fn clash(first: usize, second: usize) -> Result<(), Clash> {
    Err(Clash { first, second })
}

/// A field of the chip 0, from bit 0 on.
fn low(reg: u8, mask: u8) -> Field {
    field(0, reg, mask, 0)
}

#[test]
fn first_clashes(rt: HostRuntime) {
    let apart = [
        low(0x10, 0x7f),
        low(0x11, 0x7f),
        low(0x20, 0x01),
        low(0x20, 0x02),
    ];
    assert_disjoint(&rt, &apart, Ok(()));
    assert_disjoint(&rt, &[], Ok(()));
    assert_disjoint(&rt, &[low(0x10, 0x7f), low(0x10, 0x7f)], clash(0, 1));
    let crossing = [
        low(0x30, 0x0f),
        low(0x30, 0x70),
        low(0x30, 0x1c),
        low(0x31, 0x10),
    ];
    assert_disjoint(&rt, &crossing, clash(0, 2));
    let other_chip = [field(1, 0x10, 0x7f, 0), low(0x10, 0x7f)];
    assert_disjoint(&rt, &other_chip, Ok(()));
}

#[test]
fn laws_of_fields() {
    laws::field_is_its_bits();
    laws::put_is_read();
    laws::put_keeps_fields();
    laws::put_keeps_bits();
    laws::put_keeps_chips();
    laws::put_of_same();
}
