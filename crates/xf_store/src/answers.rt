//! What a store answered, as plain data.

use xf_base::Items;
use xf_io::Bytes;

/// What a store answered to one call.
#[derive(Debug, Drop)]
pub enum Answer {
    /// The bytes were put.
    PutDone,
    /// The call did not go through.
    Failed,
    /// The bytes that stood under the name.
    Found(Bytes),
    /// Nothing stood under the name.
    Absent,
    /// More stood under the name than a get gives.
    TooLong,
}

/// The answers to the calls of one event, in order.
pub type Answers = Items<Answer>;
