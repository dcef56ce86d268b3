//! The lines that are written of a state and for an event.
#![tactic(auto)]

mod answer;
mod control;
mod instance;
mod marks;
mod names;
mod nodes;
mod note;
mod refusal;
mod text;

pub use answer::push_ok;
pub use control::{ShownCopy, push_copy, push_repeat, push_switch};
pub use instance::{push_instance, push_instances};
pub use names::numbers_of;
pub use note::push_notes;
pub use refusal::{push_construct_refusal, push_ready_refusal, push_refusal};
