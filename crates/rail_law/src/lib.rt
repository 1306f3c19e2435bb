//! The law of a board, which two calls judge, and its least lawful voltages: where some voltages keep all ties of the rails there are least ones, and only one such list.
#![tactic(auto)]

mod law;
pub mod laws;
mod shown;

pub use law::{law_holds, write_keeps};
