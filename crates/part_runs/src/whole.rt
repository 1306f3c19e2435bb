use crate::found::{Asked, write_found};
use std::alloc::Global;
use std::io;
use std::io::Read;

/// Prints what is found in the devicetree text of the standard input, or its first fault.
pub(crate) fn whole(
    rt: &(impl Input + Print + Alloc<A = Global>),
    asked: Asked<'_>,
) -> io::Result<()> {
    let mut text = Vec::new(rt.alloc());
    rt.reader().read_to_end(&mut text)?;
    let mut found = String::new(rt.alloc());
    write_found(rt.alloc(), &mut found, asked, text.as_slice())?;
    let found = found.as_str().trim_end();
    println!(rt; "{found}")
}
