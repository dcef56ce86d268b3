//! Where the copies of an insert go and which nodes a delete takes, with nothing under a readonly node, and the node of a set that a place
//! names.
#![tactic(auto)]

mod kinds;
mod named;
mod placing;
mod planning;
mod taking;
mod walking;

pub use named::{held, held_at};
pub use placing::planned_insert;
pub use planning::{Asked, Planning};
pub use taking::planned_delete;
