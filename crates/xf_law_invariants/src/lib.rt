//! Laws of what every change of the form machine keeps: the data stay whole trees, inserts and deletes are planned so, and a state at rest stays
//! whole.
#![tactic(auto)]

pub mod frame;
pub mod planned;
pub mod tree;
pub mod whole;
