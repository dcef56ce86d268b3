//! Why a literal tree with resolved names is refused by its names.
ghost use Rattle.std.specs.Prelude.{◌≡◌, ◌||◌, [], not, map, IfOk};
ghost use Rattle.std.specs.List.{list_any};
ghost use Rattle.xf_name.specs.Part.{is_part, kind_of};
ghost use Rattle.xf_name.specs.Faults.{has_double};
ghost use Rattle.xf_def_forest.specs.Forest.{written_with};
ghost use Rattle.xf_def_forest.specs.Planted.{first_fault, is_declaration, bare_fault, elements_of_bare, is_bound, is_bound_element, is_bound_attribute, would_declare};
ghost use Rattle.xf_tree_literals.specs.Contents.{elements_of_element, elements_of_all};

use crate::plant::declares;
use indexmap::IndexSet;
use std::alloc::{AllocError, Global};
use xf_def_forest::{Bare, BareAttribute, BareElement, TreeFault};
use xf_name::{Prefixes, QName, is_part};

/// The fault of the first element that has one.
#[cycle(bare_faults)]
pub fn fault_of_bare(
    alloc: Global,
    prefixes: &Prefixes,
    tree: &Bare,
) -> Result<Option<TreeFault>, AllocError>
    ensures { IfOk result (λ fault. fault ≡ first_fault (bare_fault prefixes.now) (elements_of_bare tree.now)) }
{
    match tree {
        Bare::Text(_) => Ok(None),
        Bare::Element(element) => fault_of_element(alloc, prefixes, element),
    }
}

#[cycle(bare_faults)]
fn fault_of_element(
    alloc: Global,
    prefixes: &Prefixes,
    element: &BareElement,
) -> Result<Option<TreeFault>, AllocError>
    ensures { IfOk result (λ fault. fault ≡ first_fault (bare_fault prefixes.now) (elements_of_element element.now)) }
{
    let attributes = element.attributes.as_slice();
    if let Some(fault) = own_fault(alloc, prefixes, &element.name, attributes)? {
        return Ok(Some(fault));
    }
    fault_of_all(alloc, prefixes, element.children.as_slice())
}

#[cycle(bare_faults)]
fn fault_of_all(
    alloc: Global,
    prefixes: &Prefixes,
    trees: &[Bare],
) -> Result<Option<TreeFault>, AllocError>
    ensures { IfOk result (λ fault. fault ≡ first_fault (bare_fault prefixes.now) (elements_of_all trees.now)) }
{
    for tree in trees {
        if let Some(fault) = fault_of_bare(alloc, prefixes, tree)? {
            return Ok(Some(fault));
        }
    }
    Ok(None)
}

/// The fault of an element by itself: of its names before its prefixes.
fn own_fault(
    alloc: Global,
    prefixes: &Prefixes,
    name: &QName,
    attributes: &[BareAttribute],
) -> Result<Option<TreeFault>, AllocError>
    ensures { IfOk result (λ fault. fault ≡ bare_fault prefixes.now (name.now, attributes.now)) }
{
    if !is_part(name.local.as_str())
        || has_bad_name(prefixes, attributes)
        || has_double(alloc, attributes)?
    {
        return Ok(Some(TreeFault::BadName));
    }
    if !is_bound_element(prefixes, name) || has_unbound(prefixes, attributes) {
        return Ok(Some(TreeFault::Prefix));
    }
    Ok(None)
}

fn has_bad_name(prefixes: &Prefixes, attributes: &[BareAttribute]) -> bool
    ensures { result ≡ list_any (λ a. not (is_part a.name.local) || would_declare prefixes.now a) attributes.now }
{
    attributes.iter().any(|a| !is_part(a.name.local.as_str()) || would_declare(prefixes, a))
}

/// Whether the attribute would declare a namespace, were it written out.
fn would_declare(prefixes: &Prefixes, attribute: &BareAttribute) -> bool
    ensures { result ≡ would_declare prefixes.now attribute.now }
{
    let local = attribute.name.local.as_str();
    match prefixes.prefix_text(attribute.name.prefix) {
        Some(prefix) => declares_with(prefix, local),
        None => declares(local),
    }
}

/// Whether an attribute with this prefix, which may be empty, declares a namespace.
fn declares_with(prefix: &str, local: &str) -> bool
    ensures { result ≡ is_declaration (kind_of (written_with prefix.now local.now)) }
{
    if prefix.is_empty() {
        return declares(local);
    }
    declares(prefix)
}

/// Whether two attributes have the same namespace and local name.
fn has_double(alloc: Global, attributes: &[BareAttribute]) -> Result<bool, AllocError>
    ensures { IfOk result (λ double. double ≡ has_double (map (λ a. (a.name.space, a.name.local)) attributes.now)) }
{
    let mut seen = IndexSet::new(alloc);
    repeats(attributes, &mut seen)
}

fn repeats<'a>(
    attributes: &'a [BareAttribute],
    seen: &mut IndexSet<(u16, &'a str)>,
) -> Result<bool, AllocError>
    requires { seen.old.keys ≡ [] }
    ensures { IfOk result (λ double. double ≡ has_double (map (λ a. (a.name.space, a.name.local)) attributes.now)) }
{
    for attribute in attributes {
        let name = (attribute.name.space, attribute.name.local.as_str());
        if !seen.insert(name)? {
            return Ok(true);
        }
    }
    Ok(false)
}

fn has_unbound(prefixes: &Prefixes, attributes: &[BareAttribute]) -> bool
    ensures { result ≡ list_any (λ a. not (is_bound_attribute prefixes.now a.name)) attributes.now }
{
    attributes
        .iter()
        .any(|a| !is_bound_attribute(prefixes, &a.name))
}

fn is_bound_element(prefixes: &Prefixes, name: &QName) -> bool
    ensures { result ≡ is_bound_element prefixes.now name.now }
{
    if name.prefix == 0 {
        return name.space == 0 || prefixes.space_text(name.space).is_some();
    }
    is_bound(prefixes, name)
}

fn is_bound_attribute(prefixes: &Prefixes, name: &QName) -> bool
    ensures { result ≡ is_bound_attribute prefixes.now name.now }
{
    if name.prefix == 0 {
        return name.space == 0;
    }
    is_bound(prefixes, name)
}

/// Whether the prefix of a name stands for its namespace.
fn is_bound(prefixes: &Prefixes, name: &QName) -> bool
    ensures { result ≡ is_bound prefixes.now name.now }
{
    match prefixes.space_of_prefix(name.prefix) {
        Some(bound) => bound == name.space,
        None => false,
    }
}
