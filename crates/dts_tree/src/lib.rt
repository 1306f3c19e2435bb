//! Reads the tokens of a devicetree text into its tree, or names the first fault.
#![tactic(auto)]

mod fault;
pub mod laws;
mod parser;
mod piece;
mod reading;
mod store;
mod tree;
mod value;

pub use fault::TreeFault;
pub use parser::parse;
pub use tree::Tree;
pub use value::Cell;
