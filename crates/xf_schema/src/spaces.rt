//! White space.

ghost use Rattle.std.specs.Prelude.{◌≡◌, string_bytes, IfOk};
ghost use Rattle.xf_schema.specs.Spaces as spaces;

use std::alloc::{AllocError, Global};
use xf_types::{BuiltIn, is_space, normalized, split_first};

/// What becomes of white space (XML Schema part 2, section 4.3.6).
#[derive(Clone, Copy, Debug, PartialEq, Eq)]
pub(crate) enum Space {
    Preserve,
    Replace,
    Collapse,
}

/// The rule that a facet names.
pub(crate) fn space_named(value: &str) -> Option<Space>
    ensures { result ≡ spaces.space_named value.now }
{
    if value == "preserve" {
        return Some(Space::Preserve);
    }
    if value == "replace" {
        return Some(Space::Replace);
    }
    if value == "collapse" {
        return Some(Space::Collapse);
    }
    None
}

/// The rule of a built-in type.
pub(crate) fn usual_space(kind: BuiltIn) -> Space
    ensures { result ≡ spaces.usual_space kind }
{
    match kind {
        BuiltIn::Text => Space::Preserve,
        BuiltIn::NormalizedString => Space::Replace,
        _ => Space::Collapse,
    }
}

/// A text under a rule.
pub(crate) fn under(alloc: Global, rule: Space, text: &str) -> Result<String, AllocError>
    ensures { IfOk result (λ made. string_bytes made ≡ spaces.under rule text.now) }
{
    match rule {
        Space::Preserve => String::from_str(alloc, text),
        Space::Replace => replaced(alloc, text),
        Space::Collapse => normalized(alloc, text),
    }
}

/// Tabs, line feeds and carriage returns become spaces.
fn replaced(alloc: Global, text: &str) -> Result<String, AllocError>
    ensures { IfOk result (λ made. string_bytes made ≡ spaces.replaced text.now) }
{
    let mut made = String::with_capacity(alloc, text.len())?;
    let mut left = text;
    while let Some((c, rest)) = split_first(left) {
        left = rest;
        made.push(as_space(c))?;
    }
    Ok(made)
}

fn as_space(c: char) -> char
    ensures { result ≡ spaces.as_space c }
{
    if is_space(c) { ' ' } else { c }
}
