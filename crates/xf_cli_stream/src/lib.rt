//! The answers to the lines of a stream, by whoever answers one line over a disk and a store.
#![tactic(auto)]

mod answering;
mod lines;
mod output;

pub use answering::{AnswerFault, Answering};
pub use lines::{Ending, answer_lines};
pub use output::write_reply;
