//! The commands of the program, over the objects that it is given and whoever makes and runs its forms.
#![tactic(auto)]

mod finish;
mod form;
mod line;
mod line_session;
mod no_disk;
mod opening;
mod refusal;
mod run;
mod slots;
mod status;

pub use run::{no_room, run_program};
pub use status::{Command, Status};
