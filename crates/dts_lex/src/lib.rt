//! Cuts devicetree source into tokens, each a slice of the text, or names the first fault at its byte.
#![tactic(auto)]

mod bytes;
mod class;
mod fault;
pub mod laws;
mod lexer;
mod number;
mod piece;
mod scan;
mod token;

pub use class::is_label;
pub use fault::LexFault;
pub use lexer::lex;
pub use number::{NumberFault, number_of};
pub use piece::is_last;
pub use token::{Kind, Token};
