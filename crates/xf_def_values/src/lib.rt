//! Plain values of expressions, which are no sets of nodes: the type and the definitions of their conversions.
#![tactic(auto)]

mod plain;

pub use plain::Plain;
