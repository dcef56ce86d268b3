//! What is written to a slot, and what is read of one.

use crate::{EntryList, Journal};
use xf_io::Bytes;

/// What a new journal holds.
#[derive(Debug, Drop)]
pub struct Image {
    /// How often the form of the session was changed for another.
    pub adoptions: u32,
    pub form: Bytes,
    pub base: Bytes,
}

/// What the slot in use holds.
#[derive(Debug, Drop)]
pub struct Scanned {
    pub journal: Journal,
    /// How often the form of the session was changed for another: never in a slot of the first format.
    pub adoptions: u32,
    pub form: Bytes,
    pub base: Bytes,
    pub entries: EntryList,
    /// The gate of the first entry that does not decode, or the offset of the first gate that does not
    /// stand. The entries end before it.
    pub cut: Option<u64>,
}
