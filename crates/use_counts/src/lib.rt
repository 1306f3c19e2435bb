//! The counts of a rail, each the sum over its handles that it stands for; and the names that a worker has open.
#![tactic(auto)]

mod handle_row;
mod mine;
mod rail_use;

pub use handle_row::HandleRow;
pub use mine::Mine;
pub use rail_use::RailUse;
