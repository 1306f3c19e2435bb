//! Whether a board's gaps, its values while it is suspended and its loads are within what its rails ask, or the first rails that aren't.
#![tactic(auto)]

mod coupled;
mod fault;
mod gaps;
pub mod laws;
mod loads;
mod sleeps;

pub use fault::CheckFault;
pub use gaps::check_gaps;
pub use loads::check_loads;
pub use sleeps::check_sleeps;
