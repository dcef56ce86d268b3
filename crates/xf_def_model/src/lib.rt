//! What the binds of a form's models mean for its data, what a submission sends, and where an insert and a delete go: types and definitions.
#![tactic(auto)]

mod asked;
mod property;

pub use asked::{DeleteAsked, InsertAsked};
pub use property::Property;
