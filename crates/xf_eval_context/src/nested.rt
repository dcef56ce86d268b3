//! The nodes that bindings and binds select over a forest.
mod bound;
mod chain;

pub use bound::bound_nodes;
pub use chain::nested;
