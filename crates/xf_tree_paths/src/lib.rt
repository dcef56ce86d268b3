//! The paths of the nodes of a forest, each at the cost of its own text where nodes come in document order; that of one node with its instance.
#![tactic(auto)]

mod family;
mod holding;
mod opened;
mod pair;
mod path;
mod written;

pub use holding::instance_holding;
pub use opened::Paths;
pub use pair::{braces_of, pair_among, push_pair};
pub use path::path_in;
