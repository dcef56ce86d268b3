//! The handlers that an event calls, the words and actions in an element, events as they are made, elements by their numbers, and the notes of an
//! event.
#![tactic(auto)]

mod changed;
mod elements;
mod handlers;
mod inner;
mod listeners;
mod notes;
mod telling;

pub use changed::{ToInstance, delete_event, insert_event};
pub use elements::{
    id_of, instance_element, instances_at, model_element, repeat_element, submission_element,
    switch_number,
};
pub use handlers::called;
pub use inner::{actions_at, words_at};
pub use notes::{NoteFault, NoteList};
pub use telling::{event, event_at, made};
