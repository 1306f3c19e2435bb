//! Which nodes of a tree are the chips and the rails of a board, in the board's order, or the first reason why they make none.
#![tactic(auto)]

mod chips;
mod compatible;
mod draft;
mod fault;
mod finding;
mod names;
mod outline;
mod plan;
mod rail_node;
mod siblings;
mod survey;

pub use fault::NodesFault;
pub use finding::board_nodes;
pub use rail_node::{BoardNodes, RailNode};
