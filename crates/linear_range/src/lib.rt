//! A table of voltages by ranges: each call answers as the written-out list of its values does.
#![tactic(auto)]

mod laws;
mod linear_range;
mod pick;
mod range_table;
mod table_fault;

pub use laws::laws_of;
pub use linear_range::LinearRange;
pub use pick::Pick;
pub use range_table::RangeTable;
pub use table_fault::TableFault;
