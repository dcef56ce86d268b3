//! Literal trees from JSON and to JSON.
#![tactic(auto)]

mod fault;
mod printing;
mod reading;

pub use fault::JsonFault;
pub use printing::print;
pub use reading::{read, value_of};
