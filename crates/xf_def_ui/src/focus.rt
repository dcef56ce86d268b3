//! The context of an expression.

use xf_def_forest::NodeId;

/// The context of an expression (XPath 1.0, section 1).
#[derive(Clone, Copy, Debug)]
pub struct Focus {
    /// The context node, the place of it among the nodes at hand, from 1, and their number.
    pub node: NodeId,
    pub position: u32,
    pub size: u32,
}
