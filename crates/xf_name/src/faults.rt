//! The faults of an element's names.

ghost use Rattle.std.specs.Prelude.{◌≡◌, ◌||◌, not, filter_map, option_map, IfOk};
ghost use Rattle.std.specs.List.{list_any};
ghost use Rattle.xf_name.specs.Part.{kind_of};
ghost use Rattle.xf_name.specs.Faults.{name_fault, has_double, expanded, is_name, is_unknown, is_unknown_as, is_rebound_as};

use crate::fault::NameFault;
use crate::lit::{LitElement, Pair};
use crate::part::{at_colon, is_part};
use crate::prefixes::Prefixes;
use indexmap::IndexSet;
use std::alloc::AllocError;

// The first fault of an element. What `seen` holds is of no account; it is handed on to spare its memory.
pub(crate) fn name_fault<'a>(
    prefixes: &Prefixes,
    element: &'a LitElement,
    seen: &mut IndexSet<(u16, &'a str)>,
) -> Result<Option<NameFault>, AllocError>
    ensures { IfOk result (λ fault. fault ≡ name_fault prefixes.now element.now.name element.now.attributes) }
{
    let name = element.name.as_str();
    let attributes = element.attributes.as_slice();
    if !is_name(name) || has_bad_name(attributes) || has_double(prefixes, attributes, seen)? {
        return Ok(Some(NameFault::BadName));
    }
    if is_unknown(prefixes, name) || has_unknown(prefixes, attributes) {
        return Ok(Some(NameFault::PrefixUnknown));
    }
    if has_rebound(prefixes, attributes) {
        return Ok(Some(NameFault::PrefixRebound));
    }
    Ok(None)
}

fn is_name(written: &str) -> bool
    ensures { result ≡ is_name written.now }
{
    match at_colon(written) {
        None => is_part(written),
        Some((before, after)) => is_part(before) && is_part(after),
    }
}

fn has_bad_name(attributes: &[Pair]) -> bool
    ensures { result ≡ list_any (λ p. not (is_name p.name)) attributes.now }
{
    attributes.iter().any(|p| !is_name(p.name.as_str()))
}

// Whether two attributes have the same namespace and local name.
fn has_double<'a>(
    prefixes: &Prefixes,
    attributes: &'a [Pair],
    seen: &mut IndexSet<(u16, &'a str)>,
) -> Result<bool, AllocError>
    ensures { IfOk result (λ double. double ≡ has_double (filter_map (expanded prefixes.now) attributes.now)) }
{
    seen.clear();
    for attribute in attributes {
        let Some(name) = expanded(prefixes, attribute) else {
            continue;
        };
        if !seen.insert(name)? {
            return Ok(true);
        }
    }
    Ok(false)
}

// The namespace and local name of an attribute that is no declaration.
fn expanded<'a>(prefixes: &Prefixes, attribute: &'a Pair) -> Option<(u16, &'a str)>
    ensures { option_map (λ name. (name.0, name.1.now)) result ≡ expanded prefixes.now attribute.now }
{
    let written = attribute.name.as_str();
    let Some((before, after)) = at_colon(written) else {
        if written == "xmlns" || !is_part(written) {
            return None;
        }
        return Some((0, written));
    };
    if before == "xmlns" || !is_part(before) || !is_part(after) {
        return None;
    }
    match prefixes.prefix_numbers(before) {
        Some((_, space)) => Some((space, after)),
        None => None,
    }
}

fn has_unknown(prefixes: &Prefixes, attributes: &[Pair]) -> bool
    ensures { result ≡ list_any (λ p. is_unknown_as prefixes.now (kind_of p.name) p.name) attributes.now }
{
    attributes.iter().any(|p| is_unknown_in(prefixes, p))
}

fn is_unknown_in(prefixes: &Prefixes, attribute: &Pair) -> bool
    ensures { result ≡ is_unknown_as prefixes.now (kind_of attribute.now.name) attribute.now.name }
{
    let written = attribute.name.as_str();
    match at_colon(written) {
        None => false,
        Some((before, _)) => before != "xmlns" && is_unknown(prefixes, written),
    }
}

// Whether a name has a prefix that the form does not declare.
fn is_unknown(prefixes: &Prefixes, written: &str) -> bool
    ensures { result ≡ is_unknown prefixes.now written.now }
{
    match at_colon(written) {
        None => false,
        Some((before, after)) => is_part(before)
            && is_part(after)
            && prefixes.prefix_numbers(before).is_none(),
    }
}

fn has_rebound(prefixes: &Prefixes, attributes: &[Pair]) -> bool
    ensures { result ≡ list_any (λ p. is_rebound_as prefixes.now (kind_of p.name) p.text) attributes.now }
{
    attributes.iter().any(|p| is_rebound(prefixes, p))
}

// Whether an attribute declares a prefix that has another namespace, or none.
fn is_rebound(prefixes: &Prefixes, attribute: &Pair) -> bool
    ensures { result ≡ is_rebound_as prefixes.now (kind_of attribute.now.name) attribute.now.text }
{
    let Some((before, prefix)) = at_colon(attribute.name.as_str()) else {
        return false;
    };
    if before != "xmlns" {
        return false;
    }
    let Some((_, bound)) = prefixes.prefix_numbers(prefix) else {
        return true;
    };
    match prefixes.space_of(attribute.text.as_str()) {
        Some(space) => bound != space,
        None => true,
    }
}
