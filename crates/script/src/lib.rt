//! A line of a worker's script is the call that it spells, or tells what is wrong with it.
#![tactic(auto)]

mod line_fault;
mod lines;
mod rail_names;

pub use line_fault::LineFault;
pub use lines::read_call;
pub use rail_names::names_of;
