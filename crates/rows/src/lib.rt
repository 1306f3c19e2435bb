//! What workers call, what they are answered, and the line that is printed of each.
#![tactic(auto)]

mod answer;
mod answer_reading;
mod answer_text;
mod call;
mod call_reading;
mod call_text;
mod event_reading;
mod fault_reading;
mod handles;
pub mod laws;
mod numbers;
pub mod reading;
mod row;
mod row_fault;
mod row_line;
mod row_reading;
mod split;
mod words;
mod write_reading;

pub use answer::Answer;
pub use call::Call;
pub use row::Row;
pub use row_fault::RowFault;
pub use row_reading::read_row;
pub use words::{hex_text, mode_text, on_text};
