//! A map by owners and names that keeps its entries in the order in which their keys came.
#![tactic(auto)]

mod edges;
mod key;
mod name_list;
mod name_map;
mod piece;
mod places;
mod shelf;

pub use name_list::NameList;
pub use name_map::NameMap;
