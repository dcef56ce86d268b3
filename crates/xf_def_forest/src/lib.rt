//! The document model: nodes, literal trees with resolved names, and what a forest and each change of it means.
#![tactic(auto)]

mod bare;
mod content;
mod fault;
mod node;

pub use bare::{Bare, BareAttribute, BareAttributeList, BareElement, BareList};
pub use content::{Content, Kind, Name, Node};
pub use fault::TreeFault;
pub use node::{NodeId, NodeList};
