//! A board with its rails where they start: the built-in one, or one that was read, from the registers that were found.
#![tactic(auto)]

mod built_in;
mod finishing;
mod gaps;
pub mod laws;
mod loaded;
mod puts;
mod registers;
mod switched;
mod targets;
mod writing;

pub use built_in::demo;
pub use finishing::{FinishFault, finish};
pub use gaps::check_gaps;
pub use loaded::Loaded;
pub use registers::{reset_regs, set_bytes};
pub use writing::{LoadWire, bring_up};
