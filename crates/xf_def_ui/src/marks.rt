//! The properties of nodes, and who tells them.

use xf_def_forest::NodeId;

/// The properties of a node (XForms 1.1, section 6.1).
#[derive(Clone, Copy, Debug, PartialEq, Eq)]
pub struct Marks {
    pub relevant: bool,
    pub readonly: bool,
    pub required: bool,
    pub valid: bool,
}

/// Tells the properties of nodes. Contracts see it as what it tells of each number.
pub trait NodeMarks {
    ghost use Rattle.std.specs.Prelude.{◌≡◌, ℕ};
    ghost use Rattle.xf_def_ui.specs.declared.marks.Marks.{Marks};

    ghost marks_of: { Self → ℕ → Marks };

    fn marks(&self, node: NodeId) -> Marks
        ensures { result ≡ marks_of self.now node.number };
}
