//! Names as they are resolved.

use crate::word::Word;

/// A name as it is resolved: its namespace and its prefix by number, 0 being none, and its local part.
#[derive(Debug, Drop)]
pub struct QName {
    pub space: u16,
    pub prefix: u16,
    pub local: Word,
}
