//! A map that keeps its entries in the order in which their keys came, and finds them by an ordered map.
#![tactic(auto)]

mod ordered_map;

pub use ordered_map::{OrderedMap, place_or};
