//! Over what an insert and a delete are planned.

ghost use Rattle.std.specs.Prelude.{◌≡◌};
ghost use Rattle.xf_def_forest.specs.Visit.{has};
ghost use Rattle.xf_insert.specs.Closed.{closed_by};

use crate::kinds::is_live;
use std::alloc::Global;
use xf_def_forest::{NodeId, NodeList};
use xf_def_ui::NodeMarks;
use xf_tree::Forest;

/// Data, and who tells the properties of their nodes.
#[derive(Clone, Copy)]
pub struct Planning<'a, M: NodeMarks> {
    pub alloc: Global,
    pub forest: &'a Forest,
    pub marks: &'a M,
}

/// What an insert asks for, once its expressions are evaluated.
#[derive(Clone, Copy)]
pub struct Asked<'a> {
    /// The insert context.
    pub context: NodeId,
    /// The node set, in document order.
    pub set: &'a NodeList,
    /// The nodes to copy, in document order.
    pub origin: &'a NodeList,
    /// The rounded place in the node set, from 1, or None where it is not written.
    pub at: Option<i64>,
}

/// Whether a node stands in the data and is readonly. It costs the nodes above it.
pub(crate) fn is_closed<M: NodeMarks>(planning: &Planning<'_, M>, node: NodeId) -> bool
    ensures { result ≡ has node.number (closed_by (M.marks_of planning.now.marks.now) planning.now.forest.now.forest.nodes) }
{
    if !is_live(planning.forest, node) {
        return false;
    }
    planning.marks.marks(node).readonly
}
