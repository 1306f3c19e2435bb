//! The plain board: what every call is answered on a board without threads, and where its rails stand after it.
#![tactic(auto)]

mod counts;
mod fields;
pub mod laws;
mod plain;
mod summary_text;

pub use fields::hold_fields;
pub use plain::Plain;
pub use summary_text::summary;
