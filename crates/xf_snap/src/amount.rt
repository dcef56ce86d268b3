//! How much a snapshot has.
ghost use Rattle.std.specs.Prelude.{◌≡◌, ◌-◌, ◌^◌, min, sum_by};
ghost use Rattle.std.specs.List.{list_all};
ghost use Rattle.xf_snap.specs.Within.{attribute_size, tree_nodes, element_nodes, tree_size, element_size, is_element};
ghost use Rattle.xf_snap.specs.Reading.{keeps_limits};

use crate::Snap;
use xf_base::limits::{ALL_LIMIT, NODE_LIMIT};
use xf_def_forest::{Bare, BareAttribute, BareElement};

/// Whether a snapshot that was read is within the limits as a whole.
pub(crate) fn keeps_limits(snap: &Snap) -> bool
    ensures { result ≡ keeps_limits snap.now }
{
    let documents = snap.documents.as_slice();
    snap.accepted < 1 << 63
        && are_elements(documents)
        && all_nodes(documents) <= NODE_LIMIT as u64
        && all_size(documents) <= ALL_LIMIT as u64
}

fn are_elements(trees: &[Bare]) -> bool
    ensures { result ≡ list_all is_element trees.now }
{
    trees.iter().all(is_element)
}

fn is_element(tree: &Bare) -> bool
    ensures { result ≡ is_element tree.now }
{
    match tree {
        Bare::Text(_) => false,
        Bare::Element(_) => true,
    }
}

/// The number of elements, attributes and texts, as far as a u64 counts.
fn all_nodes(trees: &[Bare]) -> u64
    ensures { result ≡ min (sum_by tree_nodes trees.now) (2 ^ 64 - 1) }
{
    let mut nodes = 0u64;
    for tree in trees {
        nodes = nodes.saturating_add(tree_nodes(tree));
    }
    nodes
}

#[cycle(nodes)]
fn tree_nodes(tree: &Bare) -> u64
    ensures { result ≡ min (tree_nodes tree.now) (2 ^ 64 - 1) }
{
    match tree {
        Bare::Text(_) => 1,
        Bare::Element(element) => element_nodes(element),
    }
}

#[cycle(nodes)]
fn element_nodes(element: &BareElement) -> u64
    ensures { result ≡ min (element_nodes element.now) (2 ^ 64 - 1) }
{
    let mut nodes = (element.attributes.len() as u64).saturating_add(1);
    for child in element.children.as_slice() {
        nodes = nodes.saturating_add(tree_nodes(child));
    }
    nodes
}

/// The bytes of texts and local names, as far as a u64 counts.
fn all_size(trees: &[Bare]) -> u64
    ensures { result ≡ min (sum_by tree_size trees.now) (2 ^ 64 - 1) }
{
    let mut size = 0u64;
    for tree in trees {
        size = size.saturating_add(tree_size(tree));
    }
    size
}

#[cycle(size)]
fn tree_size(tree: &Bare) -> u64
    ensures { result ≡ min (tree_size tree.now) (2 ^ 64 - 1) }
{
    match tree {
        Bare::Text(text) => text.len() as u64,
        Bare::Element(element) => element_size(element),
    }
}

#[cycle(size)]
fn element_size(element: &BareElement) -> u64
    ensures { result ≡ min (element_size element.now) (2 ^ 64 - 1) }
{
    let name = element.name.local.len() as u64;
    let mut size = name.saturating_add(attributes_size(element.attributes.as_slice()));
    for child in element.children.as_slice() {
        size = size.saturating_add(tree_size(child));
    }
    size
}

fn attributes_size(attributes: &[BareAttribute]) -> u64
    ensures { result ≡ min (sum_by attribute_size attributes.now) (2 ^ 64 - 1) }
{
    let mut size = 0u64;
    for attribute in attributes {
        let name = attribute.name.local.len() as u64;
        size = size.saturating_add(name.saturating_add(attribute.text.len() as u64));
    }
    size
}
