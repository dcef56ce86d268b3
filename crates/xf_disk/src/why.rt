//! Why a call of a disk over files failed.

use crate::Slot;
use std::io;

/// Why a call of a disk over files failed: the file of which slot, what was to be done with it, and the reason.
#[derive(Clone, Copy)]
pub struct Why {
    pub slot: Slot,
    pub call: &'static str,
    pub error: io::Error,
}
