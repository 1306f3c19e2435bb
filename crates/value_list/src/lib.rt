//! The picks from a written-out list of selectors with their values: the least value not below one, and the greatest
//! not above it, each at its first selector.
#![tactic(auto)]

mod laws;

pub use laws::picks_are_extreme;
