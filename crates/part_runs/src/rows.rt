use crate::row::differing;
use std::alloc::Global;
use std::io;

/// The standard input has a row a line, a text with what is found in it. Prints each row that differs, with what
/// was found.
pub(crate) fn rows(rt: &(impl Input + Print + Alloc<A = Global>)) -> io::Result<()> {
    let mut rows = 0_u64;
    let mut differ = 0_u64;
    for line in rt.lines(rt.alloc()) {
        rows = rows.saturating_add(1);
        if tell(rt, line?.as_str())? {
            differ = differ.saturating_add(1);
        }
    }
    println!(rt; "rows {rows}, of which {differ} differ")
}

/// Prints the row if it differs, with what was found, and answers whether it does.
fn tell(rt: &(impl Print + Alloc<A = Global>), line: &str) -> io::Result<bool> {
    match differing(rt.alloc(), line)? {
        Some(found) => {
            println!(rt; "{line}\n    found: {found}")?;
            Ok(true)
        }
        None => Ok(false),
    }
}
