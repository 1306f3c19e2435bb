//! The board of a devicetree, or the first reason why the tree makes none.
#![tactic(auto)]

mod build;
mod check;
mod couples;
mod drafted;
mod drafting;
mod fault;
mod fault_text;
mod graph;
mod limits;
mod pairs;
mod parts;
mod spread;
mod supply;

pub use drafted::Drafted;
pub use drafting::draft;
pub use fault::BoardFault;
