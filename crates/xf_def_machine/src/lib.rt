//! What the form machine does: its state, its changes, actions, updates, submissions, a step, a run, replies. Definitions, and the types in
//! which they answer.
#![tactic(auto)]

mod limit;
mod note;
mod refusal;

pub use limit::LimitWord;
pub use note::{Note, Notes};
pub use refusal::{PathList, Refusal};
