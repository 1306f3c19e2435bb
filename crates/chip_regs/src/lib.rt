//! The registers of a board's power chips: to put a number into a field changes that field and
//! no other bit.
#![tactic(auto)]

mod clash;
mod field;
pub mod laws;
mod regs;
mod width;

pub use clash::{Clash, disjoint};
pub use field::Field;
pub use regs::Regs;
pub use width::{Address, Bits, REGISTERS, WIDTH};
