//! Laws of changes of a forest: undoing gives it back, texts may be settled in any order, the roots of instances stay before all detached trees.
#![tactic(auto)]

pub mod rollback;
pub mod root;
pub mod settle;
