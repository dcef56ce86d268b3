//! What the binds of a model set on its nodes, and what is kept of it from one recalculation to the next.
#![tactic(auto)]

mod applied;
mod entry;
mod found;
mod kept;
mod node_set;
mod ordered;
mod readers;
mod table;
mod truth_list;
mod turns;
mod web;

pub use applied::Applied;
pub use entry::{Entry, is_calculate};
pub use node_set::NodeSet;
pub use ordered::Ordered;
pub use readers::PlaceList;
pub use table::Table;
pub use truth_list::TruthList;
pub use turns::Turn;
pub use web::{Asks, Web};
