//! A board's rails, and which values each may stand at: the nearest allowed value is that of the written-out list.
#![tactic(auto)]

mod board;
mod constraints;
mod desc;
mod event;
pub mod laws;
mod names;
mod part;
mod rail;
mod rail_id;
mod sleep;
mod state;
mod table;
mod write;

pub use board::Board;
pub use constraints::Constraints;
pub use desc::Desc;
pub use event::Event;
pub use names::{Handle, Name};
pub use part::Part;
pub use rail::Rail;
pub use rail_id::RailId;
pub use sleep::Sleep;
pub use state::State;
pub use table::Table;
pub use write::Write;
