//! The events that a session takes from outside.

use xf_base::Items;
use xf_name::Word;

/// Rows of repeats, each counted from 1, the row of the outermost repeat first.
pub type RowList = Items<u64>;

/// One event from outside.
#[derive(Debug, Drop)]
pub enum Event {
    /// Sets the value of the control with this id, in these rows of the repeats around it.
    Set(Word, RowList, Word),
    /// Activates the trigger or submit with this id, in these rows of the repeats around it.
    Activate(Word, RowList),
    /// Sets the index of the repeat with this id.
    Index(Word, u64),
    /// Starts the submission with this id.
    Send(Word),
    /// Dispatches the event of this name to the element with this id. The name has 1 to 255 bytes.
    Dispatch(Word, Word),
    /// Resets the model with this id, or the first model where the id is empty.
    Reset(Word),
}

/// What a line asks for: an event, or only that the state is shown.
#[derive(Debug, Drop)]
pub enum Asked {
    Event(Event),
    Show,
}
