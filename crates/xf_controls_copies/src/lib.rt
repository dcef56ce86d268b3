//! The copies of the controls and containers of any form, made afresh over its data: one for each chain of rows of the repeats around.
#![tactic(auto)]

mod copy;
mod enabled;
mod handed;
mod made;
mod parents;
mod value;
mod walk;

pub use made::copies;
