//! Why a literal tree is refused: its names, and what its texts and elements pass.
ghost use Rattle.std.specs.Prelude.{◌≡◌, ℕ, length, IfOk};
ghost use Rattle.std.specs.List.{list_any};
ghost use Rattle.xf_name.specs.Faults.{name_fault};
ghost use Rattle.xf_name.specs.Shown.{walk_of_all};
ghost use Rattle.xf_name.specs.Written.{walk_of, walk_of_element, default_below};
ghost use Rattle.xf_def_forest.specs.Forest.{own_text};
ghost use Rattle.xf_def_forest.specs.Limits.{limits};
ghost use Rattle.xf_def_forest.specs.Planted.{lit_fault, written_fault, first_fault, fault_by, is_unknown_space};
ghost use Rattle.xf_tree_literals.specs.Contents.{is_long, is_deep};

use std::alloc::AllocError;
use xf_base::limits::{DEPTH_LIMIT, TEXT_LIMIT};
use xf_def_forest::{Content, TreeFault};
use xf_name::{Lit, LitElement, NameFault, Pair, Prefixes};
use xf_tree_contents::{Part, is_element, lent};

/// The fault of the first element that has one.
pub fn lit_fault(prefixes: &Prefixes, lit: &Lit) -> Result<Option<TreeFault>, AllocError>
    ensures { IfOk result (λ fault. fault ≡ lit_fault prefixes.now lit.now) }
{
    fault_of_lit(prefixes, lit, "")
}

#[cycle(faults)]
fn fault_of_lit(
    prefixes: &Prefixes,
    lit: &Lit,
    above: &str,
) -> Result<Option<TreeFault>, AllocError>
    ensures { IfOk result (λ fault. (depth : ℕ) → fault ≡ first_fault (written_fault prefixes.now) (walk_of lit.now above.now depth)) }
{
    match lit {
        Lit::Text(_) => Ok(None),
        Lit::Element(element) => fault_of_element(prefixes, element, above),
    }
}

#[cycle(faults)]
fn fault_of_element(
    prefixes: &Prefixes,
    element: &LitElement,
    above: &str,
) -> Result<Option<TreeFault>, AllocError>
    ensures { IfOk result (λ fault. (depth : ℕ) → fault ≡ first_fault (written_fault prefixes.now) (walk_of_element element.now above.now depth)) }
{
    let own = default_text(element.attributes.as_slice(), above);
    if let Some(fault) = own_fault(prefixes, element, own)? {
        return Ok(Some(fault));
    }
    fault_of_all(prefixes, element.children.as_slice(), own)
}

#[cycle(faults)]
fn fault_of_all(
    prefixes: &Prefixes,
    lits: &[Lit],
    above: &str,
) -> Result<Option<TreeFault>, AllocError>
    ensures { IfOk result (λ fault. (depth : ℕ) → fault ≡ first_fault (written_fault prefixes.now) (walk_of_all lits.now above.now depth)) }
{
    for lit in lits {
        if let Some(fault) = fault_of_lit(prefixes, lit, above)? {
            return Ok(Some(fault));
        }
    }
    Ok(None)
}

/// The fault of an element by itself, where this default namespace is in force at it.
fn own_fault(
    prefixes: &Prefixes,
    element: &LitElement,
    own: &str,
) -> Result<Option<TreeFault>, AllocError>
    ensures { IfOk result (λ fault. fault ≡ fault_by (name_fault prefixes.now element.now.name element.now.attributes) (is_unknown_space prefixes.now own.now)) }
{
    match prefixes.fault_of(element)? {
        Some(NameFault::BadName) => Ok(Some(TreeFault::BadName)),
        Some(_) => Ok(Some(TreeFault::Prefix)),
        None => {
            if is_unknown_space(prefixes, own) {
                return Ok(Some(TreeFault::Prefix));
            }
            Ok(None)
        }
    }
}

fn is_unknown_space(prefixes: &Prefixes, uri: &str) -> bool
    ensures { result ≡ is_unknown_space prefixes.now uri.now }
{
    !uri.is_empty() && prefixes.space_of(uri).is_none()
}

/// The default namespace below attributes, where one is in force above.
fn default_text<'a>(attributes: &'a [Pair], above: &'a str) -> &'a str
    ensures { result.now ≡ default_below above.now attributes.now }
{
    for attribute in attributes {
        if attribute.name.is("xmlns") {
            return attribute.text.as_str();
        }
    }
    above
}

/// Whether a text or attribute is too long.
pub fn has_long(tree: &[Part]) -> bool
    ensures { result ≡ list_any (is_long limits) tree.now }
{
    tree.iter().any(|part| own_len(&part.1) > TEXT_LIMIT)
}

/// Whether an element is too deep.
pub fn has_deep(tree: &[Part]) -> bool
    ensures { result ≡ list_any (is_deep limits) tree.now }
{
    tree.iter()
        .any(|part| is_element(lent(&part.1)) && part.0 >= DEPTH_LIMIT)
}

fn own_len(content: &Content) -> usize
    ensures { result ≡ length (own_text content.now) }
{
    match content {
        Content::Attribute(_, text) => text.len(),
        Content::Text(text) => text.len(),
        _ => 0,
    }
}
