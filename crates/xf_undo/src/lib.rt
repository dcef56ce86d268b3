//! The ledger of changes that gives a forest back, and a forest that is kept with one.
#![tactic(auto)]

mod draft;
mod entry;
mod ledger;

pub use draft::Draft;
pub use entry::Change;
pub use ledger::Ledger;
