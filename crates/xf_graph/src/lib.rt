//! The dependency graph of computed values: edges that come and go, an order without a forward read or the cycle
//! that is reported, and what a change reaches.
#![tactic(auto)]

mod cycle;
mod graph;
mod links;
mod marks;
mod order;
mod peel;
mod vertices;
mod walk;

pub use graph::Graph;
pub use order::Order;
pub use vertices::VertexList;
