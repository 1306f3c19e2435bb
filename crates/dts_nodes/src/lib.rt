//! What the nodes of a devicetree say: which are in use, and their properties in the forms that a board asks for.
#![tactic(auto)]

mod form;
mod reading;
mod used;

pub use form::Form;
pub use reading::{cell, cells, first_string, number, numbers};
pub use used::{in_use, is_good};
