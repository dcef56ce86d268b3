//! What kind of node it is, and whether two have one name.

ghost use Rattle.std.specs.Prelude.{◌≡◌, option_map};
ghost use Rattle.xf_def_forest.specs.Forest as forest_specs;
ghost use Rattle.xf_def_forest.specs.Visit.{visits};
ghost use Rattle.xf_def_forest.specs.WellFormed.{have_same_name};
ghost use Rattle.xf_def_model.specs.Places.{is_in, name_of};
ghost use Rattle.xf_insert.specs.Names as names;

use xf_def_forest::{Kind, NodeId};
use xf_name::QName;
use xf_tree::Forest;

/// Whether a node stands in the forest.
pub fn is_live(forest: &Forest, node: NodeId) -> bool
    ensures { result ≡ forest_specs.has_number node.number forest.now.forest.nodes }
{
    forest.is_live(node)
}

/// Whether a node stands in the forest and is an element.
pub(crate) fn is_element(forest: &Forest, node: NodeId) -> bool
    ensures { result ≡ is_in forest_specs.is_element (visits forest.now.forest.nodes) node.number }
{
    forest.are_trees();
    if !is_live(forest, node) {
        return false;
    }
    match forest.kind(node) {
        Kind::Element => true,
        Kind::Root => false,
        Kind::Attribute => false,
        Kind::Text => false,
    }
}

/// Whether a node stands in the forest and is an attribute.
pub(crate) fn is_attribute(forest: &Forest, node: NodeId) -> bool
    ensures { result ≡ is_in forest_specs.is_attribute (visits forest.now.forest.nodes) node.number }
{
    forest.are_trees();
    if !is_live(forest, node) {
        return false;
    }
    match forest.kind(node) {
        Kind::Attribute => true,
        Kind::Root => false,
        Kind::Element => false,
        Kind::Text => false,
    }
}

/// Whether a node stands in the forest and is a root.
pub(crate) fn is_root(forest: &Forest, node: NodeId) -> bool
    ensures { result ≡ is_in forest_specs.is_root (visits forest.now.forest.nodes) node.number }
{
    forest.are_trees();
    if !is_live(forest, node) {
        return false;
    }
    match forest.kind(node) {
        Kind::Root => true,
        Kind::Element => false,
        Kind::Attribute => false,
        Kind::Text => false,
    }
}

/// Whether two nodes have a name, in the same namespace and with the same local part.
pub(crate) fn has_same_name(forest: &Forest, one: NodeId, other: NodeId) -> bool
    ensures { result ≡ have_same_name (name_of (visits forest.now.forest.nodes) one.number) (name_of (visits forest.now.forest.nodes) other.number) }
{
    let first = name_in(forest, one);
    let second = name_in(forest, other);
    are_same(first, second)
}

/// The name of a node that stands in the forest and has one.
fn name_in(forest: &Forest, node: NodeId) -> Option<&QName>
    ensures { option_map (λ name. name.now) result ≡ forest_specs.name_at node.number forest.now.forest.nodes }
{
    if !is_live(forest, node) {
        return None;
    }
    forest.name(node)
}

/// Whether there are two names, in the same namespace and with the same local part.
fn are_same(one: Option<&QName>, other: Option<&QName>) -> bool
    ensures { result ≡ names.are_same (option_map (λ name. name.now) one.entry) (option_map (λ name. name.now) other.entry) }
{
    let Some(one) = one else {
        return false;
    };
    match other {
        Some(other) => one.space == other.space && one.local.is(other.local.as_str()),
        None => false,
    }
}
