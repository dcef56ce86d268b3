//! What an engine works on: the data of a form, what its binds set, its controls, what is due, and what is counted. Contracts see the states of
//! the form machine at the end of the last event and as it stands.
#![tactic(auto)]

mod around;
mod behave;
mod choosing;
mod ending;
mod fault;
mod first;
mod flags;
mod growing;
mod holding;
mod knowing;
mod marks;
mod moving;
mod planting;
mod rebuilding;
mod recalculating;
mod refreshing;
mod setting;
mod showing;
mod tally;
mod telling;
mod trees;
mod work;

pub use fault::WorkFault;
pub use flags::{Flag, Flags};
pub use marks::Marked;
pub use planting::planted;
pub use tally::Tally;
pub use work::Work;
