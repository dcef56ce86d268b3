//! The items of a select, in document order, with their labels and values; which texts they allow, and which of them a text chooses.
#![tactic(auto)]

mod items;
mod labels;
mod sets;
mod words;

pub use items::{items_in, items_of};
pub use words::{is_chosen, may_be_set};
