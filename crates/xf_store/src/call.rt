//! What a store holds and what it was asked, as plain data.

use crate::Answer;
use xf_base::Items;
use xf_io::Bytes;

/// Bytes under a name.
#[derive(Debug, Drop)]
pub struct Named {
    pub name: Bytes,
    pub bytes: Bytes,
}

/// What a store was asked for a name.
#[derive(Debug, Drop)]
pub enum Asked {
    /// To put these bytes.
    Put(Bytes),
    Get,
}

/// One call of a store, with its answer.
#[derive(Debug, Drop)]
pub struct StoreCall {
    pub name: Bytes,
    pub asked: Asked,
    pub answer: Answer,
}

/// Calls of a store, in order.
pub type Calls = Items<StoreCall>;
