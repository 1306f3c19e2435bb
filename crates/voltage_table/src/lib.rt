//! A table of voltages by a list: selector s has the s-th value, and each call answers as the list
//! of its values does.
#![tactic(auto)]

mod laws;
mod list_fault;
mod list_pick;
mod volt_list;

pub use laws::laws_of;
pub use list_fault::ListFault;
pub use list_pick::ListPick;
pub use volt_list::VoltList;
