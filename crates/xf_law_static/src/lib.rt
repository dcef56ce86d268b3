//! Laws of static expressions: what is read and static is covered by the law of two forests, and is fixed as the calls over the shape ask.
#![tactic(auto)]

pub mod covered;
pub mod fixed;
