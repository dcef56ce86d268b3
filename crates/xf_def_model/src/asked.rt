//! What the actions insert and delete ask for, once their expressions are evaluated.

use xf_def_forest::{NodeId, NodeList};

/// What an insert asks for (XForms 1.1, section 10.3).
#[derive(Debug, Drop)]
pub struct InsertAsked {
    /// The node set, in document order.
    pub set: NodeList,
    /// The insert context.
    pub context: NodeId,
    /// Whether it was written.
    pub given: bool,
    /// The nodes to copy, in document order.
    pub origin: NodeList,
    /// The rounded place in the node set, from 1, or None where it is not written.
    pub at: Option<i64>,
    /// Whether the copies go after the node at the place.
    pub after: bool,
    /// The nodes that are readonly.
    pub closed: NodeList,
}

/// What a delete asks for (XForms 1.1, section 10.4).
#[derive(Debug, Drop)]
pub struct DeleteAsked {
    /// The node set, in document order.
    pub set: NodeList,
    /// The rounded place in the node set, from 1, or None where it is not written.
    pub at: Option<i64>,
    /// The nodes that are readonly.
    pub closed: NodeList,
}
