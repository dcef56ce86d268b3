//! The properties of one node (XForms 1.1, section 6.1).

ghost use Rattle.std.specs.Prelude.{◌≡◌, false, Some};
ghost use Rattle.xf_def_model.specs.Applied.{is_property};
ghost use Rattle.xf_def_model.specs.Properties.{own, own_readonly};
ghost use Rattle.xf_binds.specs.Kept.{values_in};
ghost use Rattle.xf_binds.specs.Table.{truth_told};
ghost use Rattle.xf_valid.specs.Nodes.{marks_in, required_in, valid_in};

use crate::above::{inherited_by, own_where};
use xf_binds::Table;
use xf_def_forest::NodeId;
use xf_def_model::Property;
use xf_def_ui::Marks;
use xf_tree::Forest;

/// Whether it is required (section 6.1.3).
pub fn is_required(table: &Table, node: NodeId) -> bool
    ensures { result ≡ required_in table.now node.number }
{
    let is_set = table.sets(Property::Required);
    own_where(table, is_set, node, Property::Required, false)
}

/// Whether the last revalidation found it valid, or it came since.
pub fn is_valid(table: &Table, node: NodeId) -> bool
    ensures { result ≡ valid_in table.now node.number }
{
    !table.is_invalid(node)
}

/// All of them. A node that does not stand in the forest has nothing above it.
pub fn marks_at(forest: &Forest, table: &Table, node: NodeId) -> Marks
    ensures { result ≡ marks_in table.now forest.now.forest.nodes node.number }
{
    let inherited = inherited_by(forest, table, node);
    Marks {
        relevant: inherited.relevant,
        readonly: inherited.readonly,
        required: is_required(table, node),
        valid: is_valid(table, node),
    }
}

/// The truth that the node's own entry has.
pub(crate) fn own(table: &Table, node: NodeId, property: Property, default: bool) -> bool
    requires { is_property property Property.Kind ≡ false }
    ensures { result ≡ own (values_in table.now) property default node.number }
{
    match table.truth(node, property) {
        Some(truth) => truth_or(truth, default),
        None => default,
    }
}

/// The truth, where there is one.
pub(crate) fn truth_or(truth: Option<bool>, default: bool) -> bool
    ensures { result ≡ truth_told default (Some truth) }
{
    match truth {
        Some(truth) => truth,
        None => default,
    }
}

/// A calculate makes its node readonly, unless the node has a readonly entry.
pub(crate) fn own_readonly(table: &Table, node: NodeId) -> bool
    ensures { result ≡ own_readonly (values_in table.now) node.number }
{
    let is_calculated = table.has(node, Property::Calculate);
    own(table, node, Property::Readonly, is_calculated)
}
