//! What event a line of the event stream asks for.
#![tactic(auto)]

mod event;
mod fault;
mod reading;

pub use event::{Asked, Event, RowList};
pub use fault::LineFault;
pub use reading::read_line;
