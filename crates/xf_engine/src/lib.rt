//! A form at work, over whoever keeps the state of the form machine: how it starts, and the events that it takes from outside.
#![tactic(auto, unfolding(xf_actions::specs::Performs::Refuses))]

mod answers;
mod constructed;
mod events;
mod handling;
mod naming;
mod outermost;
mod rows;
mod running;
mod start;

pub use constructed::Constructed;
pub use running::Running;
