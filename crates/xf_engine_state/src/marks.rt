//! The properties of nodes as they are printed and shown.

use xf_binds::Table;
use xf_def_forest::NodeId;
use xf_def_ui::{Marks, NodeMarks};
use xf_tree::Forest;
use xf_valid::marks_at;

/// The properties of the nodes of a forest, as a table gives them.
#[derive(Clone, Copy)]
pub struct Marked<'a> {
    pub(crate) forest: &'a Forest,
    pub(crate) table: &'a Table,
}

impl<'a> NodeMarks for Marked<'a> {
    ghost use Rattle.xf_engine_state.specs.Marked.{properties_of};

    ghost marks_of = { properties_of };

    fn marks(&self, node: NodeId) -> Marks {
        marks_at(self.forest, self.table, node)
    }
}
