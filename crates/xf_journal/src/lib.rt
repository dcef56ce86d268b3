//! Two slots that hold a base and a list of entries, at each moment of a crash.
#![tactic(auto)]

mod answers;
mod entry;
mod fault;
mod image;
mod journal;
mod layout;
mod new_journal;
mod number;
mod opening;
mod read;
mod step;

pub use answers::{answers_in, put_answers};
pub use entry::{Accepted, Entry, EntryList, make_entry};
pub use fault::JournalFault;
pub use image::{Image, Scanned};
pub use journal::Journal;
pub use new_journal::create;
pub use opening::scan;
