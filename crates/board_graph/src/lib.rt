//! Which rails of a board supply each other, which are coupled, and in what order they come up.
#![tactic(auto)]

mod blocks;
mod fault;
mod feeds;
mod graph;
mod knot;
pub mod laws;
mod lists;
mod order;
mod sets;
mod turns;
mod visit;
mod walk;

pub use fault::LoopFault;
pub use graph::Graph;
