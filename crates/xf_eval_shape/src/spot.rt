//! Nodes of the shape of a forest.

use xf_def_forest::NodeId;

/// A node of the shape, or one that the forest alone has.
#[derive(Clone, Copy, Debug)]
pub enum Spot {
    /// A node of the forest that stands in the shape too.
    Node(NodeId),
    /// The one text of an element without element children.
    TextOf(NodeId),
    /// A text of the forest that the shape does not have.
    Outside(NodeId),
}
