//! What the binds of a model set on which nodes.
#![tactic(auto)]

mod adding;
mod binds;
mod fault;
mod nodes;
mod sets;
mod standings;

pub use binds::apply;
pub use fault::BindFault;
