//! Where an expression is evaluated.

use xf_def_forest::NodeId;

/// The context of an expression (XPath 1.0, section 1; XForms 1.1, section 7.2).
#[derive(Clone, Copy, Debug)]
pub struct Context {
    /// The model in scope.
    pub model: u32,
    /// The context node.
    pub node: NodeId,
    /// Its place among the nodes at hand, from 1, and their number.
    pub position: u32,
    pub size: u32,
    /// The context node of the whole expression.
    pub current: NodeId,
}
