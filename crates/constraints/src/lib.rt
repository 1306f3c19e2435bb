//! What a board's author asks of a rail in its node: the rail's constraints, or the first fault of the node.
#![tactic(auto)]

mod bounds;
mod coupling;
mod fault;
mod forms;
mod modes;
mod node;
mod prop;
mod reading;
mod sleeps;
mod states;

pub use coupling::{couples, stated_spread};
pub use fault::RailFault;
pub use forms::wrong_form;
pub use node::{constraints_of, constraints_with};
pub use prop::Prop;
pub use states::StateNodes;
