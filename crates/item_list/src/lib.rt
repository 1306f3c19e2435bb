//! A `Vec` that contracts see as the list of its items, so that what holds it is plain data.
#![tactic(auto)]

mod items;

pub use items::Items;
