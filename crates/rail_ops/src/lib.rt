//! Calls on handles over some rails of a board in a worker's hands: each answers as the plain board does that the rails show, and leaves the rails showing the plain board after it.
#![tactic(auto)]

mod alone;
mod desk;
mod disabling;
mod enabling;
mod falling;
pub mod laws;
mod looking;
mod opening;
mod outcome;
mod releasing;
mod rising;
mod switching;
mod walking;

pub use alone::Alone;
pub use desk::Desk;
pub use outcome::Outcome;
