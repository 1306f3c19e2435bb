//! What stands behind the locks of a board's rails: the book of each, and the fields that can be read under any lock of their guard and are written under all of them.
#![tactic(auto)]

mod rail_state;
mod rails;

pub use rail_state::RailState;
pub use rails::Rails;
