//! What an expression reads and looks at over the shape of a forest, which is never made.
#![tactic(auto)]

mod arguments;
pub mod asked;
mod expression;
mod ways;
mod whole;

pub use whole::{asks, looks, reads};
