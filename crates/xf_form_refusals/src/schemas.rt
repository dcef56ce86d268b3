//! The schemas of a form as they are read: their types, and the first element that is bad by itself.

ghost use Rattle.std.specs.Prelude.{◌≡◌, ◌++◌, [], IfOk, OnOk, map, option_map, slice_get, count_by, unwrap_or};
ghost use Rattle.std.specs.List.{flat_map, list_any};
ghost use Rattle.xf_num.specs.Written.{is_empty};
ghost use Rattle.xf_name.specs.Part.{kind_of};
ghost use Rattle.xf_form_refusals.specs.Rows.{shown};
ghost use Rattle.xf_form_refusals.specs.Schemas as schemas;

use crate::rows::{Row, row_at, tag_at, tag_in};
use crate::standing::{is_in_schema, is_schema};
use crate::walk::small;
use std::alloc::{AllocError, Global};
use xf_base::Items;
use xf_def_syntax::{NamedType, Part, Restriction, TypeList};
use xf_form_vocabulary::{Tag, type_of};
use xf_name::{Pair, Prefixes, Word, at_colon};
use xf_schema::{Facet, TypeName};

// ---- sorts of elements

fn is_simple_type(tag: Tag) -> bool
    ensures { result ≡ schemas.is_simple_type tag }
{
    match tag {
        Tag::SimpleType => true,
        _ => false,
    }
}

fn is_restriction(tag: Tag) -> bool
    ensures { result ≡ schemas.is_restriction tag }
{
    match tag {
        Tag::Restriction => true,
        _ => false,
    }
}

/// Whether an element of a schema may stand in another one.
fn belongs(tag: Tag, around: Tag) -> bool
    ensures { result ≡ schemas.belongs tag around }
{
    match tag {
        Tag::SimpleType => is_schema(around),
        Tag::Restriction => is_simple_type(around),
        Tag::Facet(_) => is_restriction(around),
        Tag::Annotation => true,
        _ => false,
    }
}

// ---- attributes

/// The text of the first attribute that is written with the name.
fn attribute_in<'a>(attributes: &'a [Pair], name: &str) -> Option<&'a str>
    ensures { option_map (λ text. text.now) result ≡ schemas.attribute_in name.now attributes.now }
{
    for attribute in attributes {
        if attribute.name.is(name) {
            return Some(attribute.text.as_str());
        }
    }
    None
}

/// Whether it declares a namespace.
fn is_declaration(attribute: &Pair) -> bool
    ensures { result ≡ schemas.is_declaration (kind_of attribute.now.name) }
{
    let name = attribute.name.as_str();
    match at_colon(name) {
        Some((before, _)) => before == "xmlns",
        None => name == "xmlns",
    }
}

/// Whether it declares no namespace, and has another name.
fn is_other(attribute: &Pair, name: &str) -> bool
    ensures { result ≡ schemas.is_other name.now attribute.now }
{
    !is_declaration(attribute) && !attribute.name.is(name)
}

fn has_other(attributes: &[Pair], name: &str) -> bool
    ensures { result ≡ list_any (schemas.is_other name.now) attributes.now }
{
    for attribute in attributes {
        if is_other(attribute, name) {
            return true;
        }
    }
    false
}

/// The attribute that an element needs, and beside which it has none.
fn needed_of(tag: Tag) -> Option<&'static str>
    ensures { option_map (λ name. name.now) result ≡ schemas.needed_of tag }
{
    match tag {
        Tag::Schema => Some("targetNamespace"),
        Tag::SimpleType => Some("name"),
        Tag::Restriction => Some("base"),
        Tag::Facet(_) => Some("value"),
        _ => None,
    }
}

/// Whether an attribute is missing, or is one that the element may not have.
fn has_other_attributes(needed: Option<&str>, attributes: &[Pair]) -> bool
    ensures { result ≡ schemas.has_other_attributes (option_map (λ name. name.now) needed.entry) attributes.now }
{
    match needed {
        Some(name) => attribute_in(attributes, name).is_none() || has_other(attributes, name),
        None => false,
    }
}

// ---- elements that are bad by themselves

fn target_of<'a>(attributes: &'a [Pair]) -> Option<&'a str>
    ensures { option_map (λ text. text.now) result ≡ schemas.target_of attributes.now }
{
    attribute_in(attributes, "targetNamespace")
}

fn has_no_target(attributes: &[Pair]) -> bool
    ensures { result ≡ is_empty (unwrap_or (schemas.target_of attributes.now) []) }
{
    match target_of(attributes) {
        Some(target) => target.is_empty(),
        None => true,
    }
}

fn is_strange_schema(row: &Row<'_>) -> bool
    ensures { result ≡ schemas.is_strange_schema (shown row.now) }
{
    let element = row.element;
    let attributes = element.attributes.as_slice();
    has_no_target(attributes) || has_other_attributes(needed_of(row.tag), attributes)
}

fn is_restriction_at(rows: &[Row<'_>], part: &Part) -> bool
    ensures { result ≡ schemas.is_restriction_at (map shown rows.now) part.now }
{
    is_restriction(tag_in(rows, part))
}

fn has_one_restriction(rows: &[Row<'_>], row: &Row<'_>) -> bool
    ensures { result ≡ schemas.has_one_restriction (map shown rows.now) (shown row.now) }
{
    count_restrictions(rows, &row.parts) == 1
}

fn count_restrictions(rows: &[Row<'_>], parts: &[Part]) -> usize
    ensures { result ≡ count_by (schemas.is_restriction_at (map shown rows.now)) parts.now }
{
    parts
        .iter()
        .filter(|part| is_restriction_at(rows, part))
        .count()
}

fn is_strange_within(rows: &[Row<'_>], row: &Row<'_>) -> bool
    ensures { result ≡ schemas.is_strange_within (map shown rows.now) (shown row.now) }
{
    let element = row.element;
    !belongs(row.tag, row.standing.around)
        || has_other_attributes(needed_of(row.tag), element.attributes.as_slice())
        || (is_simple_type(row.tag) && !has_one_restriction(rows, row))
}

fn is_strange(rows: &[Row<'_>], row: &Row<'_>) -> bool
    ensures { result ≡ schemas.is_strange (map shown rows.now) (shown row.now) }
{
    if is_schema(row.tag) {
        return is_strange_schema(row);
    }
    is_in_schema(row.standing.zone) && is_strange_within(rows, row)
}

/// The place of the first element of a schema that is bad by itself.
pub(crate) fn first_strange(rows: &[Row<'_>]) -> Option<usize>
    ensures { result ≡ schemas.first_strange (map shown rows.now) }
{
    for (place, row) in rows.iter().enumerate() {
        if is_strange(rows, row) {
            return Some(place);
        }
    }
    None
}

// ---- the names of types

/// The target namespace of the schema in which one stands.
fn target_at<'a>(rows: &[Row<'a>], parent: Option<u32>) -> Option<&'a str>
    ensures { option_map (λ text. text.now) result ≡ schemas.target_at (map shown rows.now) parent }
{
    let parent = parent?;
    let row = row_at(rows, parent as usize)?;
    let element = row.element;
    target_of(element.attributes.as_slice())
}

fn name_by(
    alloc: Global,
    space: Option<&str>,
    local: Option<&str>,
) -> Result<Option<TypeName>, AllocError>
    ensures { IfOk result (λ name. name ≡ schemas.name_by (option_map (λ t. t.now) space.entry) (option_map (λ t. t.now) local.entry)) }
{
    let Some(space) = space else {
        return Ok(None);
    };
    let Some(local) = local else {
        return Ok(None);
    };
    if space.is_empty() {
        return Ok(None);
    }
    Ok(Some(TypeName {
        space: Word::from_str(alloc, space)?,
        local: Word::from_str(alloc, local)?,
    }))
}

fn is_type(row: &Row<'_>) -> bool
    ensures { result ≡ schemas.is_type (shown row.now) }
{
    is_simple_type(row.tag) && is_schema(row.standing.around)
}

/// The name of a type, where the element is one and has a name.
fn name_of(alloc: Global, rows: &[Row<'_>], row: &Row<'_>) -> Result<Option<TypeName>, AllocError>
    ensures { IfOk result (λ name. name ≡ schemas.name_of (map shown rows.now) (shown row.now)) }
{
    if !is_type(row) {
        return Ok(None);
    }
    let element = row.element;
    let local = attribute_in(element.attributes.as_slice(), "name");
    name_by(alloc, target_at(rows, row.standing.parent), local)
}

/// The names of the types of all schemas, in document order.
pub fn names_of(alloc: Global, rows: &[Row<'_>]) -> Result<Items<TypeName>, AllocError>
    ensures { IfOk result (λ names. names ≡ schemas.names_of (map shown rows.now)) }
{
    let mut names = Items::new(alloc);
    for row in rows {
        if let Some(name) = name_of(alloc, rows, row)? {
            names.push(name)?;
        }
    }
    Ok(names)
}

// ---- types

/// What types are read by.
#[derive(Clone, Copy)]
pub(crate) struct Reading<'s, 'a> {
    pub alloc: Global,
    pub prefixes: &'s Prefixes,
    pub rows: &'s [Row<'a>],
    /// Those of all types.
    pub names: &'s [TypeName],
}

/// The place of the first restriction among these.
fn restriction_in(rows: &[Row<'_>], parts: &[Part]) -> Option<u32>
    ensures { result ≡ schemas.restriction_in (map shown rows.now) parts.now }
{
    for part in parts {
        match part {
            Part::Text(_) => {}
            Part::Element(place) => {
                if is_restriction(tag_at(rows, *place)) {
                    return Some(*place);
                }
            }
        }
    }
    None
}

fn push_facet(
    reading: Reading<'_, '_>,
    place: u32,
    facets: &mut Items<Facet>,
) -> Result<(), AllocError>
    ensures { OnOk result (facets.new ≡ facets.old ++ schemas.facet_in (map shown reading.entry.rows.now) (Part.Element place)) }
{
    let Tag::Facet(kind) = tag_at(reading.rows, place) else {
        return Ok(());
    };
    let value = attribute_in(attributes_at(reading.rows, place), "value").unwrap_or("");
    facets.push(Facet {
        kind,
        value: Word::from_str(reading.alloc, value)?,
        place,
    })
}

fn attributes_at<'a>(rows: &[Row<'a>], place: u32) -> &'a [Pair]
    ensures { result.now ≡ schemas.attributes_at (slice_get (map shown rows.now) place) }
{
    match row_at(rows, place as usize) {
        Some(row) => {
            let element = row.element;
            element.attributes.as_slice()
        }
        None => &[],
    }
}

fn parts_at<'s>(rows: &'s [Row<'_>], place: u32) -> &'s [Part]
    ensures { result.now ≡ schemas.parts_at (slice_get (map shown rows.now) place) }
{
    match row_at(rows, place as usize) {
        Some(row) => row.parts.as_slice(),
        None => &[],
    }
}

/// The facets among these.
fn facets_of(reading: Reading<'_, '_>, parts: &[Part]) -> Result<Items<Facet>, AllocError>
    ensures { IfOk result (λ facets. facets ≡ flat_map (schemas.facet_in (map shown reading.entry.rows.now)) parts.now) }
{
    let mut facets = Items::new(reading.alloc);
    for part in parts {
        match part {
            Part::Text(_) => {}
            Part::Element(place) => push_facet(reading, *place, &mut facets)?,
        }
    }
    Ok(facets)
}

fn base_of(reading: Reading<'_, '_>, attributes: &[Pair]) -> Result<Option<NamedType>, AllocError>
    ensures { IfOk result (λ base. base ≡ schemas.base_of reading.entry.prefixes.now reading.entry.names.now attributes.now) }
{
    match attribute_in(attributes, "base") {
        Some(text) => type_of(reading.prefixes, reading.names, text),
        None => Ok(None),
    }
}

/// A type with its name and its place, and its restriction by its place.
fn type_with(
    reading: Reading<'_, '_>,
    place: u32,
    name: TypeName,
    restriction: Option<u32>,
) -> Result<Restriction, AllocError>
    requires { reading.names.now ≡ schemas.names_of (map shown reading.rows.now) }
    ensures { IfOk result (λ made. made ≡ schemas.type_with reading.entry.prefixes.now (map shown reading.entry.rows.now) place name restriction) }
{
    match restriction {
        Some(at) => Ok(Restriction {
            name,
            type_place: place,
            base: base_of(reading, attributes_at(reading.rows, at))?,
            place: at,
            facets: facets_of(reading, parts_at(reading.rows, at))?,
        }),
        None => Ok(Restriction {
            name,
            type_place: place,
            base: None,
            place,
            facets: Items::new(reading.alloc),
        }),
    }
}

fn push_type(
    reading: Reading<'_, '_>,
    place: u32,
    row: &Row<'_>,
    types: &mut TypeList,
) -> Result<(), AllocError>
    requires { reading.names.now ≡ schemas.names_of (map shown reading.rows.now) }
    ensures { OnOk result (types.new ≡ types.old ++ schemas.type_at reading.entry.prefixes.now (map shown reading.entry.rows.now) place (shown row.now)) }
{
    let Some(name) = name_of(reading.alloc, reading.rows, row)? else {
        return Ok(());
    };
    let restriction = restriction_in(reading.rows, &row.parts);
    types.push(type_with(reading, place, name, restriction)?)
}

/// The types of all schemas, in document order.
pub fn types_of(
    alloc: Global,
    prefixes: &Prefixes,
    rows: &[Row<'_>],
    names: &[TypeName],
) -> Result<TypeList, AllocError>
    requires { names.now ≡ schemas.names_of (map shown rows.now) }
    ensures { IfOk result (λ types. types ≡ schemas.types_of prefixes.now (map shown rows.now)) }
{
    let reading = Reading {
        alloc,
        prefixes,
        rows,
        names,
    };
    let mut types = Items::new(alloc);
    for (place, row) in rows.iter().enumerate() {
        push_type(reading, small(place)?, row, &mut types)?;
    }
    Ok(types)
}
