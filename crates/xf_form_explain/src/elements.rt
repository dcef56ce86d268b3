//! What is known of a refusal at an element.

ghost use Rattle.std.specs.Prelude.{◌≡◌, IfOk, count_by, map, option_map, slice_get};
ghost use Rattle.std.specs.List.{list_any};
ghost use Rattle.xf_form_vocabulary.specs.Attributes as attributes;
ghost use Rattle.xf_form_refusals.specs.Classes as classes;
ghost use Rattle.xf_form_refusals.specs.Refusals as refusals;
ghost use Rattle.xf_form_refusals.specs.Rows.{shown, tag_of, tag_in};
ghost use Rattle.xf_form_refusals.specs.Schemas.{names_of};
ghost use Rattle.xf_form_refusals.specs.Standing as standing;
ghost use Rattle.xf_form_refusals.specs.declared.classes.Class.TheVariants as class;
ghost use Rattle.xf_form_explain.specs.Details as details;
ghost use Rattle.xf_form_explain.specs.Ids.{HasCounts};

use crate::attributes::by_attributes;
use crate::detail::Detail;
use crate::ids::count_outside;
use crate::missing::missing;
use crate::names::name_detail;
use crate::search::Search;
use std::alloc::AllocError;
use xf_def_syntax::Part;
use xf_form_refusals::{Row, id_in, is_handler, is_outside};
use xf_form_vocabulary::{Known, Tag, known_of, may_stand};
use xf_name::Word;

/// What is known of a refusal of the number at the first element that has one.
pub fn first_detail(search: &Search<'_, '_>) -> Result<Option<Detail>, AllocError>
    requires counts { HasCounts search.now.ids.now (map shown search.now.rows.now) }
    requires names { search.now.names.now ≡ names_of (map shown search.now.rows.now) }
    ensures { IfOk result (λ found. found ≡ details.detail_from search.now.number search.now.decimals search.now.prefixes.now (map shown search.now.rows.now) search.now.first_model 0 (map shown search.now.rows.now)) }
{
    let rows = search.rows;
    for (place, row) in rows.iter().enumerate() {
        if let Some(detail) = detail_at(search, row, place)? {
            return Ok(Some(detail));
        }
    }
    Ok(None)
}

fn detail_at(
    search: &Search<'_, '_>,
    row: &Row<'_>,
    place: usize,
) -> Result<Option<Detail>, AllocError>
    requires counts { HasCounts search.now.ids.now (map shown search.now.rows.now) }
    requires names { search.now.names.now ≡ names_of (map shown search.now.rows.now) }
    ensures { IfOk result (λ found. found ≡ details.detail_at search.now.number search.now.decimals search.now.prefixes.now (map shown search.now.rows.now) search.now.first_model place (shown row.now)) }
{
    if search.number < 6 {
        return name_detail(search, row);
    }
    if !is_outside(row.standing.zone) {
        return Ok(None);
    }
    own_detail(search, row, place)
}

// Of an element outside instances, but for its names.
fn own_detail(
    search: &Search<'_, '_>,
    row: &Row<'_>,
    place: usize,
) -> Result<Option<Detail>, AllocError>
    requires counts { HasCounts search.now.ids.now (map shown search.now.rows.now) }
    requires names { search.now.names.now ≡ names_of (map shown search.now.rows.now) }
    ensures { IfOk result (λ found. found ≡ details.own_detail search.now.number search.now.decimals search.now.prefixes.now (map shown search.now.rows.now) search.now.first_model place (shown row.now)) }
{
    if search.number == 6 {
        return Ok(no_model(search, row, place));
    }
    if search.number == 9 {
        return misplaced(search, row);
    }
    if search.number == 11 {
        return double_id(search, row);
    }
    let element = row.element;
    let known = known_of(search.alloc, search.prefixes, element.attributes.as_slice())?;
    if search.number == 10 {
        return bad_attribute(search, row, place, &known);
    }
    by_attributes(search, row, &known)
}

// ---- models

fn no_model(search: &Search<'_, '_>, row: &Row<'_>, place: usize) -> Option<Detail>
    ensures { result ≡ details.no_model (map shown search.now.rows.now) search.now.first_model place (shown row.now) }
{
    if search.first_model.is_none() && place == 0 {
        return Some(Detail::NoModel);
    }
    if is_model(row.tag) && !has_instance(search.rows, &row.parts) {
        return Some(Detail::NoInstance);
    }
    None
}

fn is_model(tag: Tag) -> bool
    ensures { result ≡ classes.is_model tag }
{
    match tag {
        Tag::Model => true,
        _ => false,
    }
}

fn is_instance(tag: Tag) -> bool
    ensures { result ≡ standing.is_instance tag }
{
    match tag {
        Tag::Instance => true,
        _ => false,
    }
}

// ---- what stands in an element

fn has_instance(rows: &[Row<'_>], parts: &[Part]) -> bool
    ensures { result ≡ list_any (refusals.is_instance_in (map shown rows.now)) parts.now }
{
    for part in parts {
        if is_instance(tag_in(rows, part)) {
            return true;
        }
    }
    false
}

fn has_case(rows: &[Row<'_>], parts: &[Part]) -> bool
    ensures { result ≡ list_any (refusals.is_case_in (map shown rows.now)) parts.now }
{
    for part in parts {
        if is_case(tag_in(rows, part)) {
            return true;
        }
    }
    false
}

fn is_case(tag: Tag) -> bool
    ensures { result ≡ classes.is_case tag }
{
    match tag {
        Tag::Case => true,
        _ => false,
    }
}

fn tag_in(rows: &[Row<'_>], part: &Part) -> Tag
    ensures { result ≡ tag_in (map shown rows.now) part.now }
{
    match part {
        Part::Text(_) => Tag::Host,
        Part::Element(place) => tag_at(rows, *place),
    }
}

fn tag_at(rows: &[Row<'_>], place: u32) -> Tag
    ensures { result ≡ tag_of (slice_get (map shown rows.now) place) }
{
    match rows.get(place as usize) {
        Some(row) => row.tag,
        None => Tag::Host,
    }
}

fn count_elements(parts: &[Part]) -> usize
    ensures { result ≡ count_by refusals.is_element parts.now }
{
    parts.iter().filter(|part| is_element(part)).count()
}

fn is_element(part: &Part) -> bool
    ensures { result ≡ refusals.is_element part.now }
{
    match part {
        Part::Text(_) => false,
        Part::Element(_) => true,
    }
}

// ---- places

fn misplaced(search: &Search<'_, '_>, row: &Row<'_>) -> Result<Option<Detail>, AllocError>
    ensures { IfOk result (λ found. found ≡ details.misplaced (map shown search.now.rows.now) (shown row.now)) }
{
    if !may_stand(row.tag, row.standing.around) {
        return Ok(Some(unknown_or_misplaced(search, row)?));
    }
    let count = count_elements(&row.parts);
    if is_instance(row.tag) && count != 1 {
        return Ok(Some(Detail::NotOneElement(count)));
    }
    if is_switch(row.tag) && !has_case(search.rows, &row.parts) {
        return Ok(Some(Detail::NoCase));
    }
    Ok(None)
}

fn is_switch(tag: Tag) -> bool
    ensures { result ≡ classes.is_switch tag }
{
    match tag {
        Tag::Switch => true,
        _ => false,
    }
}

fn unknown_or_misplaced(search: &Search<'_, '_>, row: &Row<'_>) -> Result<Detail, AllocError>
    ensures { IfOk result (λ found. found ≡ details.unknown_or_misplaced (map shown search.now.rows.now) (shown row.now) row.now.tag) }
{
    match row.tag {
        Tag::Unknown => Ok(Detail::UnknownElement),
        _ => {
            let around = name_around(search.rows, row.standing.parent);
            Ok(Detail::Misplaced(Word::from_str(search.alloc, around)?))
        }
    }
}

// The name of the element at a place, or nothing.
fn name_around<'s>(rows: &'s [Row<'_>], parent: Option<u32>) -> &'s str
    ensures { result.now ≡ details.name_around (map shown rows.now) parent }
{
    let Some(place) = parent else {
        return "";
    };
    match rows.get(place as usize) {
        Some(row) => {
            let element = row.element;
            element.name.as_str()
        }
        None => "",
    }
}

// ---- attributes

fn bad_attribute(
    search: &Search<'_, '_>,
    row: &Row<'_>,
    place: usize,
    known: &[Known<'_>],
) -> Result<Option<Detail>, AllocError>
    requires counts { HasCounts search.now.ids.now (map shown search.now.rows.now) }
    requires names { search.now.names.now ≡ names_of (map shown search.now.rows.now) }
    ensures { IfOk result (λ found. found ≡ details.bad_attribute search.now.number search.now.decimals search.now.prefixes.now (map shown search.now.rows.now) search.now.first_model place (shown row.now) (map attributes.shown known.now)) }
{
    if is_model(row.tag) && search.first_model != Some(place) {
        return Ok(None);
    }
    let found = by_attributes(search, row, known)?;
    if found.is_some() {
        return Ok(found);
    }
    match missing(row.tag, is_handler(row), known) {
        Some(need) => Ok(Some(Detail::Lacks(need))),
        None => Ok(None),
    }
}

fn double_id(search: &Search<'_, '_>, row: &Row<'_>) -> Result<Option<Detail>, AllocError>
    requires { HasCounts search.now.ids.now (map shown search.now.rows.now) }
    ensures { IfOk result (λ found. found ≡ details.double_id (map shown search.now.rows.now) (shown row.now)) }
{
    let element = row.element;
    let Some(id) = id_in(element.attributes.as_slice()) else {
        return Ok(None);
    };
    let count = count_shared(search, id);
    if count <= 1 {
        return Ok(None);
    }
    let id = Word::from_str(search.alloc, id)?;
    Ok(Some(Detail::DoubleId(id, count)))
}

fn count_shared(search: &Search<'_, '_>, id: &str) -> usize
    requires { HasCounts search.now.ids.now (map shown search.now.rows.now) }
    ensures { result ≡ classes.count_called class.Outside (map shown search.now.rows.now) id.now }
{
    count_outside(search.ids, id)
}
