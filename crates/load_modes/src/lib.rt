//! The mode of lowest power that carries a load, of the modes that a rail allows.
#![tactic(auto)]

mod mode;
mod modes;

pub use mode::{Mode, mode_for};
pub use modes::Modes;
