//! How long a voltage takes to change: by a ramp the least time that covers the distance, else a
//! settling time.
#![tactic(auto)]

mod times;

pub use times::{Times, time};
