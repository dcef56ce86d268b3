//! What the user interface of a form means: rows and indexes of repeats, control copies, items, texts, notifications, the handlers of an event.
//! Definitions, and the types in which they answer.
#![tactic(auto)]

mod answers;
mod focus;
mod marks;
mod told;

pub use answers::{CallList, Item, ItemList};
pub use focus::Focus;
pub use marks::{Marks, NodeMarks};
pub use told::{Property, PropertyList};
