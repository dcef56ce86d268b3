//! Which texts meet a type by restriction: after its white space rule, what meets its built-in type and each facet on the way.

ghost use Rattle.std.specs.Prelude.{◌≡◌, ◌∷◌, IfOk, length, unwrap_or};
ghost use Rattle.std.specs.List.{list_all};
ghost use Rattle.xf_schema.specs.Facets.{meets_restriction, meets_type_of, meets_under, nearest_space, space_on};
ghost use Rattle.xf_schema.specs.Types.{way};

use crate::bases::{declared_at, end_of};
use crate::facets::{meets_restriction, own_space};
use crate::spaces::{Space, under, usual_space};
use crate::written::{NamedType, Restriction};
use std::alloc::{AllocError, Global};
use xf_types::{BuiltIn, SimpleType, meets};

/// Whether a text meets a restriction as one of these types.
pub(crate) fn meets_type_of(
    alloc: Global,
    types: &[Restriction],
    restriction: &Restriction,
    text: &str,
) -> Result<bool, AllocError>
    ensures { IfOk result (λ b. b ≡ meets_type_of types.now restriction.now text.now) }
{
    let Some(end) = end_of(types, types.len(), restriction.base) else {
        return Ok(false);
    };
    let rule = space_of(types, restriction, end.kind);
    let made = under(alloc, rule, text)?;
    Ok(meets_under(types, restriction, &end, made.as_str()))
}

/// The white space rule of a restriction as one of these types, which end in this built-in one.
fn space_of(types: &[Restriction], restriction: &Restriction, kind: BuiltIn) -> Space
    ensures { result ≡ space_on (restriction.now ∷ way (length types.now) types.now restriction.now.base) kind }
{
    if let Some(own) = own_space(restriction) {
        return own;
    }
    match space_along(types, types.len(), restriction.base) {
        Some(further) => further,
        None => usual_space(kind),
    }
}

/// The nearest rule from a base on, past so many types at most.
fn space_along(types: &[Restriction], most: usize, base: Option<NamedType>) -> Option<Space>
    ensures { result ≡ nearest_space (way most types.now base) }
{
    let mut left = most;
    let mut further = base;
    while left > 0 {
        let Some(restriction) = declared_at(types, further) else {
            return None;
        };
        let own = own_space(restriction);
        if own.is_some() {
            return own;
        }
        left -= 1;
        further = restriction.base;
    }
    None
}

/// Whether a text under its rule meets the built-in type at the end, and each restriction on the way.
fn meets_under(
    types: &[Restriction],
    restriction: &Restriction,
    end: &SimpleType,
    text: &str,
) -> bool
    ensures { result ≡ meets_under end.now (restriction.now ∷ way (length types.now) types.now restriction.now.base) text.now }
{
    if end.may_be_empty && text.is_empty() {
        return true;
    }
    if !meets(end, text) || !meets_restriction(end.kind, text, restriction) {
        return false;
    }
    meets_along(types, types.len(), restriction.base, end.kind, text)
}

/// Whether a text meets the restrictions from a base on, past so many types at most.
fn meets_along(
    types: &[Restriction],
    most: usize,
    base: Option<NamedType>,
    kind: BuiltIn,
    text: &str,
) -> bool
    ensures { result ≡ list_all (meets_restriction kind text.now) (way most types.now base) }
{
    let mut left = most;
    let mut further = base;
    while left > 0 {
        let Some(restriction) = declared_at(types, further) else {
            return true;
        };
        if !meets_restriction(kind, text, restriction) {
            return false;
        }
        left -= 1;
        further = restriction.base;
    }
    true
}
