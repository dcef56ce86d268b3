//! What an accepted event tells.

use xf_base::Items;
use xf_name::Word;

/// A note of an event.
#[derive(Debug, Drop)]
pub enum Note {
    /// The text of a message (XForms 1.1, section 10.16).
    Message(Word),
    /// The resource of a load (XForms 1.1, section 10.15).
    Load(Word),
    /// The id of the control that takes the focus (XForms 1.1, section 10.7).
    Focus(Word),
    /// The name and the size of a response that replaces all (XForms 1.1, section 11.1).
    All(Word, u32),
}

/// The notes of an event, in order.
pub type Notes = Items<Note>;
