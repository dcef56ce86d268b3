//! The types of a form: the first bad element of its schemas, and which texts meet a type.

ghost use Rattle.std.specs.Prelude.{◌≡◌, IfOk};
ghost use Rattle.xf_schema.specs.Facets.{is_of_type, meets_named};
ghost use Rattle.xf_schema.specs.Faults as faults;

use crate::meets::meets_type_of;
use crate::rules::first_bad_from;
use crate::written::{NamedType, Restriction};
use std::alloc::{AllocError, Global};
use xf_types::meets;

/// The place of the first bad element, if any is bad, where these are the types and `strange` is the first element that is bad by itself: it is
/// not known there, lacks an attribute or has another, or has not what it needs in it.
pub fn first_bad(types: &[Restriction], strange: Option<u32>) -> Option<u32>
    ensures { result ≡ faults.first_bad types.now strange }
{
    earlier(strange, first_bad_from(types, 0))
}

/// The one that stands first in the document.
fn earlier(first: Option<u32>, second: Option<u32>) -> Option<u32>
    ensures { result ≡ faults.earlier first second }
{
    let Some(x) = first else {
        return second;
    };
    let Some(y) = second else {
        return first;
    };
    if y < x { second } else { first }
}

/// Whether a text meets the type of this number among these.
pub fn meets_named(
    alloc: Global,
    types: &[Restriction],
    number: usize,
    text: &str,
) -> Result<bool, AllocError>
    ensures { IfOk result (λ b. b ≡ meets_named types.now number text.now) }
{
    match types.get(number) {
        Some(restriction) => meets_type_of(alloc, types, restriction, text),
        None => Ok(false),
    }
}

/// Whether a text meets a type that is named, where these are those of the form.
pub fn is_of_type(
    alloc: Global,
    types: &[Restriction],
    named: &NamedType,
    text: &str,
) -> Result<bool, AllocError>
    ensures { IfOk result (λ b. b ≡ is_of_type types.now named.now text.now) }
{
    match named {
        NamedType::BuiltIn(kind) => Ok(meets(kind, text)),
        NamedType::Declared(number) => meets_named(alloc, types, *number, text),
    }
}
