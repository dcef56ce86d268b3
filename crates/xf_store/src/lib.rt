//! Stores of named bytes, which submissions put into and get from.
#![tactic(auto)]

mod answers;
mod call;
mod canned;
mod fault;
mod folder;
mod got;
mod memory;
mod store;

pub use answers::{Answer, Answers};
pub use call::{Asked, Calls, Named, StoreCall};
pub use canned::Canned;
pub use folder::FolderStore;
pub use got::{GetFault, Got};
pub use memory::MemoryStore;
pub use store::Store;
pub use xf_base::limits::FOUND_LIMIT;
