//! What who runs a form asks of the form machine beside the calls of actions.
#![tactic(auto)]

mod machine;

pub use machine::Machine;
