//! The tables of a form from its bytes, or its first refusal.
#![tactic(auto)]

mod actions;
mod bindings;
mod controls;
mod counts;
mod data;
mod elements;
mod fault;
mod kinds;
mod laws;
mod loaded;
mod loading;
mod models;
mod plan;
mod scopes;
mod submissions;
mod tables;
mod targets;
mod trees;
mod written;

pub use fault::FormFault;
pub use laws::{loaded_documents, loaded_ordered, loaded_static};
pub use loaded::Loaded;
pub use loading::load;
pub use trees::lit_at;
