//! Which texts meet facets.

ghost use Rattle.std.specs.Prelude.{◌≡◌, ◌&&◌, find};
ghost use Rattle.std.specs.List.{list_all, list_any};
ghost use Rattle.xf_schema.specs.Decimals as decimals;
ghost use Rattle.xf_schema.specs.Facets.{above, at_least, at_most, below, is_enumeration, is_equal, is_white_space, meets_enumerations, meets_facet, meets_restriction, own_space, space_in, within_digits, within_fraction};
ghost use Rattle.xf_schema.specs.Seen.{seen_decimal};

use crate::counts::{count_of, is_decimal_kind, length_of};
use crate::decimals::{Decimal, decimal_of, is_less, is_same};
use crate::spaces::{Space, space_named};
use crate::written::{Facet, FacetKind, Restriction};
use xf_types::BuiltIn;

/// Whether a text, under its white space rule, meets the facets of a restriction.
pub(crate) fn meets_restriction(kind: BuiltIn, text: &str, restriction: &Restriction) -> bool
    ensures { result ≡ meets_restriction kind text.now restriction.now }
{
    let facets = restriction.facets.as_slice();
    meets_each(kind, text, facets) && meets_enumerations(kind, text, facets)
}

/// Whether a text meets each of these facets by itself.
fn meets_each(kind: BuiltIn, text: &str, facets: &[Facet]) -> bool
    ensures { result ≡ list_all (λ f. meets_facet kind f.kind f.value text.now) facets.now }
{
    for facet in facets {
        if !meets_facet(kind, facet, text) {
            return false;
        }
    }
    true
}

fn meets_facet(kind: BuiltIn, facet: &Facet, text: &str) -> bool
    ensures { result ≡ meets_facet kind facet.now.kind facet.now.value text.now }
{
    let value = facet.value.as_str();
    match facet.kind {
        FacetKind::Length => is_long(kind, value, text),
        FacetKind::MinLength => is_at_least_long(kind, value, text),
        FacetKind::MaxLength => is_at_most_long(kind, value, text),
        FacetKind::MinInclusive => is_at_least(value, text),
        FacetKind::MaxInclusive => is_at_most(value, text),
        FacetKind::MinExclusive => is_above(value, text),
        FacetKind::MaxExclusive => is_below(value, text),
        FacetKind::TotalDigits => has_total_digits(value, text),
        FacetKind::FractionDigits => has_fraction_digits(value, text),
        FacetKind::Enumeration => true,
        FacetKind::WhiteSpace => true,
    }
}

// ---- lengths

fn is_long(kind: BuiltIn, value: &str, text: &str) -> bool
    ensures { result ≡ meets_facet kind FacetKind.Length value.now text.now }
{
    match count_of(value.as_bytes()) {
        Some(count) => length_of(kind, text) as u64 == count,
        None => false,
    }
}

fn is_at_least_long(kind: BuiltIn, value: &str, text: &str) -> bool
    ensures { result ≡ meets_facet kind FacetKind.MinLength value.now text.now }
{
    match count_of(value.as_bytes()) {
        Some(count) => count <= length_of(kind, text) as u64,
        None => false,
    }
}

fn is_at_most_long(kind: BuiltIn, value: &str, text: &str) -> bool
    ensures { result ≡ meets_facet kind FacetKind.MaxLength value.now text.now }
{
    match count_of(value.as_bytes()) {
        Some(count) => length_of(kind, text) as u64 <= count,
        None => false,
    }
}

// ---- bounds

fn is_at_least(value: &str, text: &str) -> bool
    ensures { result ≡ at_least value.now text.now }
{
    match (decimal_of(value), decimal_of(text)) {
        (Some(bound), Some(number)) => !is_less(&number, &bound),
        _ => false,
    }
}

fn is_at_most(value: &str, text: &str) -> bool
    ensures { result ≡ at_most value.now text.now }
{
    match (decimal_of(value), decimal_of(text)) {
        (Some(bound), Some(number)) => !is_less(&bound, &number),
        _ => false,
    }
}

fn is_above(value: &str, text: &str) -> bool
    ensures { result ≡ above value.now text.now }
{
    match (decimal_of(value), decimal_of(text)) {
        (Some(bound), Some(number)) => is_less(&bound, &number),
        _ => false,
    }
}

fn is_below(value: &str, text: &str) -> bool
    ensures { result ≡ below value.now text.now }
{
    match (decimal_of(value), decimal_of(text)) {
        (Some(bound), Some(number)) => is_less(&number, &bound),
        _ => false,
    }
}

// ---- digits

fn has_total_digits(value: &str, text: &str) -> bool
    ensures { result ≡ within_digits value.now text.now }
{
    match (count_of(value.as_bytes()), decimal_of(text)) {
        (Some(count), Some(number)) => total_digits(&number) <= u128::from(count),
        _ => false,
    }
}

fn total_digits(number: &Decimal<'_>) -> u128
    ensures { result ≡ decimals.total_digits (seen_decimal number.now) }
{
    number.whole.len() as u128 + number.fraction.len() as u128
}

fn has_fraction_digits(value: &str, text: &str) -> bool
    ensures { result ≡ within_fraction value.now text.now }
{
    match (count_of(value.as_bytes()), decimal_of(text)) {
        (Some(count), Some(number)) => number.fraction.len() as u64 <= count,
        _ => false,
    }
}

// ---- enumerations

/// Whether a text is one of the enumerations, where there are any.
fn meets_enumerations(kind: BuiltIn, text: &str, facets: &[Facet]) -> bool
    ensures { result ≡ meets_enumerations kind facets.now text.now }
{
    !has_enumeration(facets) || is_enumerated(kind, text, facets)
}

fn has_enumeration(facets: &[Facet]) -> bool
    ensures { result ≡ list_any (λ f. is_enumeration f.kind) facets.now }
{
    for facet in facets {
        if is_enumeration(facet.kind) {
            return true;
        }
    }
    false
}

fn is_enumerated(kind: BuiltIn, text: &str, facets: &[Facet]) -> bool
    ensures { result ≡ list_any (λ f. is_enumeration f.kind && is_equal kind f.value text.now) facets.now }
{
    for facet in facets {
        if is_enumeration(facet.kind) && is_equal(kind, facet.value.as_str(), text) {
            return true;
        }
    }
    false
}

fn is_enumeration(kind: FacetKind) -> bool
    ensures { result ≡ is_enumeration kind }
{
    match kind {
        FacetKind::Enumeration => true,
        _ => false,
    }
}

/// Whether a text is an equal decimal, or for other types an equal text.
fn is_equal(kind: BuiltIn, value: &str, text: &str) -> bool
    ensures { result ≡ is_equal kind value.now text.now }
{
    if !is_decimal_kind(kind) {
        return value == text;
    }
    match (decimal_of(value), decimal_of(text)) {
        (Some(first), Some(second)) => is_same(&first, &second),
        _ => false,
    }
}

// ---- white space

/// The white space rule that a restriction has.
pub(crate) fn own_space(restriction: &Restriction) -> Option<Space>
    ensures { result ≡ own_space restriction.now }
{
    space_among(restriction.facets.as_slice())
}

fn space_among(facets: &[Facet]) -> Option<Space>
    ensures { result ≡ space_in (find (λ f. is_white_space f.kind) facets.now) }
{
    for facet in facets {
        if is_white_space(facet.kind) {
            return space_named(facet.value.as_str());
        }
    }
    None
}

fn is_white_space(kind: FacetKind) -> bool
    ensures { result ≡ is_white_space kind }
{
    match kind {
        FacetKind::WhiteSpace => true,
        _ => false,
    }
}
