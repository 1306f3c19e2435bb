//! The commands of the program: what is written is the text of one history of the session that was read.
#![tactic(auto)]

mod advice;
mod commands;
mod desk;
mod exit;
mod input;
mod numbers;
mod output;
mod play;
mod requests;
mod script;
mod status;
mod walk;
mod words;
mod worker;

pub use commands::{front, top};
pub use exit::exit_code;
pub use status::{Status, code};
