//! A submission as far as the answer of the store: what it sends, what it asks the store for, the one call, what comes of the response, where that
//! may come, and what the event tells with which it ends.
#![tactic(auto)]

mod asking;
mod calling;
mod ending;
mod error;
mod naming;
mod nodes;
mod requesting;
mod responding;
mod selecting;
mod sources;
mod targets;

pub use calling::{CallFault, exchange};
pub use ending::end_properties;
pub use error::ErrorType;
pub use naming::is_store_name;
pub use requesting::{Request, requested};
pub use responding::{Outcome, response};
pub use selecting::{Chosen, Left, selected};
pub use targets::{takes_text, takes_tree, target};
