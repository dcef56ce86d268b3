//! A session of a form, kept on a disk at each moment, over whoever runs the form.
#![tactic(auto)]

mod answers;
mod beginning;
mod fault;
mod figures;
mod forms;
mod looking;
mod offset;
mod processor;
mod reopening;
mod replay;
mod session;
mod starting;

pub use beginning::{begin, resume, start};
pub use fault::{OpenFault, PostFault};
pub use figures::Figures;
pub use forms::{FormFault, Forms};
pub use processor::{Processor, Starting};
pub use session::Session;
pub use xf_actions::EventFault;
