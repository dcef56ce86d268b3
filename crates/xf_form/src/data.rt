//! The limits of a form's data.

ghost use Rattle.std.specs.Prelude.{◌≡◌, ◌+◌, IfOk, map, option_map, count_by, sum_by};
ghost use Rattle.std.specs.List.{list_any};
ghost use Rattle.xf_name.specs.Part.{kind_of};
ghost use Rattle.xf_form.specs.Data as limits;

use crate::trees::lit_at;
use std::alloc::AllocError;
use xf_base::limits::{NODE_LIMIT, TEXT_LIMIT};
use xf_def_syntax::Instance;
use xf_name::{Lit, LitElement, Pair, at_colon};

/// The word of the first limit that the data of a form passes.
pub fn data_limit(form: &Lit, instances: &[Instance]) -> Result<Option<&'static str>, AllocError>
    ensures { IfOk result (λ word. option_map (λ w. w.now) word ≡ limits.data_limit form.now instances.now) }
{
    if all_nodes(form, instances)? > NODE_LIMIT {
        return Ok(Some("nodes"));
    }
    if has_long(form, instances) {
        return Ok(Some("text"));
    }
    Ok(None)
}

// A count that does not fit is told as want of memory: a form that is read has fewer nodes.
fn plus(count: usize, more: usize) -> Result<usize, AllocError>
    ensures { IfOk result (λ sum. sum ≡ count + more) }
{
    match count.checked_add(more) {
        Some(sum) => Ok(sum),
        None => Err(AllocError),
    }
}

// ---- nodes

fn all_nodes(form: &Lit, instances: &[Instance]) -> Result<usize, AllocError>
    ensures { IfOk result (λ nodes. nodes ≡ sum_by (λ i. (limits.extent_in form.now i).nodes) instances.now) }
{
    let mut nodes = 0;
    for instance in instances {
        nodes = plus(nodes, nodes_in(form, instance)?)?;
    }
    Ok(nodes)
}

fn nodes_in(form: &Lit, instance: &Instance) -> Result<usize, AllocError>
    ensures { IfOk result (λ nodes. nodes ≡ (limits.extent_in form.now instance.now).nodes) }
{
    match lit_at(form, instance.place.as_slice()) {
        Some(lit) => nodes_of(lit),
        None => Ok(0),
    }
}

#[cycle(nodes)]
fn nodes_of(lit: &Lit) -> Result<usize, AllocError>
    ensures { IfOk result (λ nodes. nodes ≡ (limits.extent_of lit.now).nodes) }
{
    match lit {
        Lit::Text(_) => Ok(1),
        Lit::Element(element) => nodes_of_element(element),
    }
}

#[cycle(nodes)]
fn nodes_of_element(element: &LitElement) -> Result<usize, AllocError>
    ensures { IfOk result (λ nodes. nodes ≡ (limits.extent_of_element element.now).nodes) }
{
    let attributes = count_nodes(element.attributes.as_slice());
    let children = nodes_of_all(element.children.as_slice())?;
    plus(plus(1, attributes)?, children)
}

#[cycle(nodes)]
fn nodes_of_all(children: &[Lit]) -> Result<usize, AllocError>
    ensures { IfOk result (λ nodes. nodes ≡ sum_by (λ c. c.nodes) (map limits.extent_of children.now)) }
{
    let mut nodes = 0;
    for child in children {
        nodes = plus(nodes, nodes_of(child)?)?;
    }
    Ok(nodes)
}

fn count_nodes(attributes: &[Pair]) -> usize
    ensures { result ≡ count_by limits.is_node attributes.now }
{
    attributes.iter().filter(|one| is_node(one)).count()
}

// Whether it is no declaration.
fn is_node(attribute: &Pair) -> bool
    ensures { result ≡ limits.is_node attribute.now }
{
    let name = attribute.name.as_str();
    match at_colon(name) {
        Some((before, _)) => before != "xmlns",
        None => name != "xmlns",
    }
}

// ---- texts

fn has_long(form: &Lit, instances: &[Instance]) -> bool
    ensures { result ≡ list_any (λ i. (limits.extent_in form.now i).is_long) instances.now }
{
    for instance in instances {
        if is_long_in(form, instance) {
            return true;
        }
    }
    false
}

fn is_long_in(form: &Lit, instance: &Instance) -> bool
    ensures { result ≡ (limits.extent_in form.now instance.now).is_long }
{
    match lit_at(form, instance.place.as_slice()) {
        Some(lit) => is_long(lit),
        None => false,
    }
}

#[cycle(long)]
fn is_long(lit: &Lit) -> bool
    ensures { result ≡ (limits.extent_of lit.now).is_long }
{
    match lit {
        Lit::Text(text) => is_long_text(text.as_str()),
        Lit::Element(element) => is_long_element(element),
    }
}

#[cycle(long)]
fn is_long_element(element: &LitElement) -> bool
    ensures { result ≡ (limits.extent_of_element element.now).is_long }
{
    has_long_attribute(element.attributes.as_slice()) || has_long_child(element.children.as_slice())
}

#[cycle(long)]
fn has_long_child(children: &[Lit]) -> bool
    ensures { result ≡ list_any (λ c. c.is_long) (map limits.extent_of children.now) }
{
    for child in children {
        if is_long(child) {
            return true;
        }
    }
    false
}

fn has_long_attribute(attributes: &[Pair]) -> bool
    ensures { result ≡ list_any limits.is_long_attribute attributes.now }
{
    attributes.iter().any(|one| is_long_attribute(one))
}

fn is_long_attribute(attribute: &Pair) -> bool
    ensures { result ≡ limits.is_long_attribute attribute.now }
{
    is_node(attribute) && is_long_text(attribute.text.as_str())
}

fn is_long_text(text: &str) -> bool
    ensures { result ≡ limits.is_long_text text.now }
{
    text.len() > TEXT_LIMIT
}
