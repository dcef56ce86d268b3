//! The forest of instance data: rows in document order over slots, and what each call keeps of them.
#![tactic(auto)]

mod attach;
mod before;
mod change;
mod choose;
mod drop;
mod forest;
mod law;
mod may;
mod order;
mod print;
mod read;
mod set;
mod settle;
mod texts;

pub use before::Before;
pub use forest::Forest;
pub use xf_tree_contents::{Principal, Seen, Sought};
pub use xf_tree_walks::{Pieces, Walk};
