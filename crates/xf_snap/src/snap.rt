//! What of a session is kept.

use xf_base::Items;
use xf_def_forest::BareList;

/// Numbers, which contracts see as the list of them.
pub type CountList = Items<u32>;

/// What of a session is kept: all else can be made of it again.
#[derive(Drop)]
pub struct Snap {
    /// How many events were accepted.
    pub accepted: u64,
    /// The document element of each instance, in the order of the document, as all that follows.
    pub documents: BareList,
    /// The index of each repeat.
    pub indexes: CountList,
    /// The selected case of each switch, from 0.
    pub cases: CountList,
}
