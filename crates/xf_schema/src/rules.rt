//! Which elements of schemas are bad.

ghost use Rattle.std.specs.Prelude.{◌≡◌, ◌≤◌, drop, length};
ghost use Rattle.xf_schema.specs.Facets.{is_decimal_kind};
ghost use Rattle.xf_schema.specs.Faults as faults;

use crate::bases::{end_of, is_endless, is_named};
use crate::counts::{count_of, is_decimal_kind};
use crate::decimals::is_decimal;
use crate::spaces::space_named;
use crate::written::{Facet, FacetKind, NamedType, Restriction};
use xf_types::{BuiltIn, SimpleType};

/// The first bad element of the types from a number on.
pub(crate) fn first_bad_from(types: &[Restriction], number: usize) -> Option<u32>
    requires { number ≤ length types.now }
    ensures { result ≡ faults.first_bad_from types.now number (drop number types.now) }
{
    for here in number..types.len() {
        let bad = bad_in(types, &types[..here], &types[here]);
        if bad.is_some() {
            return bad;
        }
    }
    None
}

/// The first bad one of a simple type, its restriction and its facets, where these types stand before it.
fn bad_in(types: &[Restriction], before: &[Restriction], restriction: &Restriction) -> Option<u32>
    ensures { result ≡ faults.bad_in types.now before.now restriction.now }
{
    if is_named_among(before, restriction) {
        return Some(restriction.type_place);
    }
    if is_bad_base(types, restriction) {
        return Some(restriction.place);
    }
    let end = end_of(types, types.len(), restriction.base);
    first_bad_facet(end, restriction.facets.as_slice())
}

fn is_named_among(before: &[Restriction], restriction: &Restriction) -> bool
    ensures { result ≡ faults.is_named_among before.now restriction.now }
{
    let space = restriction.name.space.as_str();
    let local = restriction.name.local.as_str();
    for other in before {
        if is_named(&other.name, space, local) {
            return true;
        }
    }
    false
}

/// Whether the base is no type, or the way from it has no end.
fn is_bad_base(types: &[Restriction], restriction: &Restriction) -> bool
    ensures { result ≡ faults.is_bad_base types.now restriction.now }
{
    match restriction.base {
        Some(NamedType::BuiltIn(_)) => false,
        Some(NamedType::Declared(_)) => is_endless(types, types.len(), restriction.base),
        None => true,
    }
}

// ---- facets

fn first_bad_facet(end: Option<SimpleType>, facets: &[Facet]) -> Option<u32>
    ensures { result ≡ faults.bad_facet_among end facets.now }
{
    for facet in facets {
        if is_bad_facet(end, facet) {
            return Some(facet.place);
        }
    }
    None
}

/// Whether a facet is bad, where the bases end in this type.
fn is_bad_facet(end: Option<SimpleType>, facet: &Facet) -> bool
    ensures { result ≡ faults.is_bad_facet end facet.now.kind facet.now.value }
{
    let value = facet.value.as_str();
    match facet.kind {
        FacetKind::Length => is_bad_length(end, value),
        FacetKind::MinLength => is_bad_length(end, value),
        FacetKind::MaxLength => is_bad_length(end, value),
        FacetKind::MinInclusive => is_bad_bound(end, value),
        FacetKind::MaxInclusive => is_bad_bound(end, value),
        FacetKind::MinExclusive => is_bad_bound(end, value),
        FacetKind::MaxExclusive => is_bad_bound(end, value),
        FacetKind::TotalDigits => is_zero(count_of(value.as_bytes())) || is_bad_digits(end, value),
        FacetKind::FractionDigits => is_bad_digits(end, value),
        FacetKind::WhiteSpace => is_bad_space(end, value),
        FacetKind::Enumeration => false,
    }
}

fn is_bad_length(end: Option<SimpleType>, value: &str) -> bool
    ensures { result ≡ faults.is_bad_length end value.now }
{
    if count_of(value.as_bytes()).is_none() {
        return true;
    }
    match end {
        Some(end) => !has_length(end.kind),
        None => false,
    }
}

fn is_bad_bound(end: Option<SimpleType>, value: &str) -> bool
    ensures { result ≡ faults.is_bad_bound end value.now }
{
    !is_decimal(value) || is_other(end)
}

fn is_bad_digits(end: Option<SimpleType>, value: &str) -> bool
    ensures { result ≡ faults.is_bad_digits end value.now }
{
    count_of(value.as_bytes()).is_none() || is_other(end)
}

fn is_bad_space(end: Option<SimpleType>, value: &str) -> bool
    ensures { result ≡ faults.is_bad_space end value.now }
{
    if space_named(value).is_none() {
        return true;
    }
    match end {
        Some(end) => !is_string_kind(end.kind),
        None => false,
    }
}

fn is_zero(count: Option<u64>) -> bool
    ensures { result ≡ faults.is_zero count }
{
    match count {
        Some(count) => count == 0,
        None => false,
    }
}

/// Whether the bases end in a type that is neither a decimal nor one of the integers.
fn is_other(end: Option<SimpleType>) -> bool
    ensures { result ≡ faults.fails is_decimal_kind end }
{
    match end {
        Some(end) => !is_decimal_kind(end.kind),
        None => false,
    }
}

fn has_length(kind: BuiltIn) -> bool
    ensures { result ≡ faults.has_length kind }
{
    match kind {
        BuiltIn::AnyUri => true,
        BuiltIn::HexBinary => true,
        _ => is_string_kind(kind),
    }
}

fn is_string_kind(kind: BuiltIn) -> bool
    ensures { result ≡ faults.is_string_kind kind }
{
    match kind {
        BuiltIn::Text => true,
        BuiltIn::NormalizedString => true,
        BuiltIn::Token => true,
        _ => false,
    }
}
