use linear_range::{LinearRange, RangeTable};
use std::alloc::{AllocError, Global};
use std::io;

/// The voltages go round from `LOWEST` µV by `STRIDE`, up to below `END`.
const LOWEST: u32 = 600000;

const STRIDE: u32 = 6173;

const END: u32 = 2975000;

/// The buck converters of a chip with two ranges.
const BUCK: [LinearRange; 2] = [
    LinearRange {
        min: 600000,
        min_sel: 0,
        max_sel: 63,
        step: 12500,
    },
    LinearRange {
        min: 1400000,
        min_sel: 64,
        max_sel: 127,
        step: 25000,
    },
];

/// Looks voltages up in a table of two ranges, as many as each line of the standard input says, and prints a sum
/// over the answers.
pub(crate) fn ranges(rt: &(impl Input + Print + Alloc<A = Global>)) -> io::Result<()> {
    for line in rt.lines(rt.alloc()) {
        let mut sum = String::new(rt.alloc());
        write_sum(&mut sum, line?.as_str())?;
        println!(rt; "{sum}")?;
    }
    Ok(())
}

/// Appends the sum over as many voltages as the number says.
pub(crate) fn write_sum(line: &mut String, rounds: &str) -> Result<(), AllocError> {
    match RangeTable::<8>::new(&BUCK) {
        Ok(table) => {
            let sum = looked_up(&table, rounds.parse().unwrap_or(0));
            write!(line, "{sum}")
        }
        Err(_) => Ok(()),
    }
}

/// The sum over `rounds` voltages of the selectors from above and from below and of the value of
/// the one from above.
fn looked_up(table: &RangeTable<8>, rounds: u32) -> u64 {
    let mut sum: u64 = 0;
    let mut uv = LOWEST;
    for _ in 0..rounds {
        if let Some(high) = table.selector_high(uv) {
            let value = table.value(high.sel).unwrap_or(0);
            sum = sum.wrapping_add(u64::from(high.sel) + u64::from(value));
        }
        if let Some(low) = table.selector_low(uv) {
            sum = sum.wrapping_add(u64::from(low.sel));
        }
        uv = if uv < END - STRIDE {
            uv + STRIDE
        } else {
            LOWEST
        };
    }
    sum
}
