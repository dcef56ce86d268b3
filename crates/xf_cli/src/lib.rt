//! The work of the program, over the objects that it is given: its commands, with the forms of this processor.
#![tactic(auto)]

mod forms;
mod top;

pub use top::xforms;
pub use xf_cli_commands::no_room;
