//! A session as it is read: its board, loaded, the updates that are to be refused, and a script for each worker; or its first fault.
#![tactic(auto)]

mod board_text;
mod calls;
mod fault;
mod fault_text;
mod frame;
pub mod laws;
mod loading;
mod progress;
mod reading;
mod session;
mod setup;
mod unbuilt;

pub use fault::{SessionFault, SessionKind};
pub use reading::{SESSION_LIMIT, read_session};
pub use session::Session;
