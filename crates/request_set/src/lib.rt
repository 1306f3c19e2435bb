//! The requests of a rail's handles: their bounds are what all of them have in common.
#![tactic(auto)]

mod request_set;
mod row;

pub use request_set::RequestSet;
