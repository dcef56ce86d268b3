//! What is known of a refusal by an attribute.

ghost use Rattle.std.specs.Prelude.{◌≡◌, IfOk, map};
ghost use Rattle.xf_form_vocabulary.specs.Attributes as attributes;
ghost use Rattle.xf_form_refusals.specs.Classes.{class_of, count_called};
ghost use Rattle.xf_form_refusals.specs.Rows.{shown, is_handler};
ghost use Rattle.xf_form_refusals.specs.Schemas.{names_of};
ghost use Rattle.xf_form_explain.specs.Details as details;
ghost use Rattle.xf_form_explain.specs.Ids.{HasCounts};

use crate::detail::Detail;
use crate::ids::count_named;
use crate::search::Search;
use std::alloc::AllocError;
use xf_form_refusals::{Row, is_handler};
use xf_form_vocabulary::{
    Known, Tag, Wanted, allows, attribute as at, choice_of, has_properties, is_computed,
    is_expression, type_of, wanted_of,
};
use xf_name::Word;
use xf_path::{ParseFault, parse, static_fault};

/// The first of the attributes of an element by which the form is refused.
pub fn by_attributes(
    search: &Search<'_, '_>,
    row: &Row<'_>,
    known: &[Known<'_>],
) -> Result<Option<Detail>, AllocError>
    requires counts { HasCounts search.now.ids.now (map shown search.now.rows.now) }
    requires names { search.now.names.now ≡ names_of (map shown search.now.rows.now) }
    ensures { IfOk result (λ found. found ≡ details.by_attributes search.now.number search.now.decimals search.now.prefixes.now (map shown search.now.rows.now) (shown row.now) (map attributes.shown known.now)) }
{
    for one in known {
        let found = by_attribute(search, row, *one)?;
        if found.is_some() {
            return Ok(found);
        }
    }
    Ok(None)
}

fn by_attribute(
    search: &Search<'_, '_>,
    row: &Row<'_>,
    one: Known<'_>,
) -> Result<Option<Detail>, AllocError>
    requires counts { HasCounts search.now.ids.now (map shown search.now.rows.now) }
    requires names { search.now.names.now ≡ names_of (map shown search.now.rows.now) }
    ensures { IfOk result (λ found. found ≡ details.by_attribute search.now.number search.now.decimals search.now.prefixes.now (map shown search.now.rows.now) (shown row.now) (attributes.shown one.entry)) }
{
    if search.number == 7 {
        return bad_expression(search, row.tag, one);
    }
    if search.number == 8 {
        return moving(search, row.tag, one);
    }
    if search.number == 10 {
        return bad_text(search, row, one);
    }
    if search.number == 12 {
        return no_such_id(search, row, one);
    }
    if search.number == 13 {
        return unknown_type(search, row.tag, one);
    }
    Ok(None)
}

fn bad_expression(
    search: &Search<'_, '_>,
    tag: Tag,
    one: Known<'_>,
) -> Result<Option<Detail>, AllocError>
    ensures { IfOk result (λ found. found ≡ details.bad_expression search.now.decimals search.now.prefixes.now tag (attributes.shown one.entry)) }
{
    if !is_expression(tag, one.code) {
        return Ok(None);
    }
    match parse(search.alloc, one.text, search.prefixes, search.decimals) {
        Ok(_) => Ok(None),
        Err(ParseFault::Memory) => Err(AllocError),
        Err(ParseFault::Expr(place, kind)) => Ok(Some(Detail::BadExpression(
            one.code,
            Word::from_str(search.alloc, one.text)?,
            place,
            kind,
        ))),
    }
}

fn moving(search: &Search<'_, '_>, tag: Tag, one: Known<'_>) -> Result<Option<Detail>, AllocError>
    ensures { IfOk result (λ found. found ≡ details.moving search.now.decimals search.now.prefixes.now tag (attributes.shown one.entry)) }
{
    if !is_computed(tag, one.code) {
        return Ok(None);
    }
    match moving_place(search, one.text)? {
        Some(place) => Ok(Some(Detail::Moving(
            one.code,
            Word::from_str(search.alloc, one.text)?,
            place,
        ))),
        None => Ok(None),
    }
}

// The place of what selects by values.
fn moving_place(search: &Search<'_, '_>, text: &str) -> Result<Option<u32>, AllocError>
    ensures { IfOk result (λ place. place ≡ details.moving_place search.now.decimals search.now.prefixes.now text.now) }
{
    match parse(search.alloc, text, search.prefixes, search.decimals) {
        Ok(expr) => Ok(static_fault(&expr)),
        Err(ParseFault::Memory) => Err(AllocError),
        Err(ParseFault::Expr(_, _)) => Ok(None),
    }
}

fn bad_text(
    search: &Search<'_, '_>,
    row: &Row<'_>,
    one: Known<'_>,
) -> Result<Option<Detail>, AllocError>
    ensures { IfOk result (λ found. found ≡ details.bad_text (shown row.now) (attributes.shown one.entry)) }
{
    let Some(choice) = choice_of(row.tag, is_handler(row), one.code) else {
        return Ok(None);
    };
    if allows(choice, one.text) {
        return Ok(None);
    }
    let text = Word::from_str(search.alloc, one.text)?;
    Ok(Some(Detail::BadText(one.code, text, choice)))
}

fn no_such_id(
    search: &Search<'_, '_>,
    row: &Row<'_>,
    one: Known<'_>,
) -> Result<Option<Detail>, AllocError>
    requires { HasCounts search.now.ids.now (map shown search.now.rows.now) }
    ensures { IfOk result (λ found. found ≡ details.no_such_id (map shown search.now.rows.now) (shown row.now) (attributes.shown one.entry)) }
{
    let Some(wanted) = wanted_of(row.tag, is_handler(row), one.code) else {
        return Ok(None);
    };
    if count_wanted(search, wanted, one.text) > 0 {
        return Ok(None);
    }
    let id = Word::from_str(search.alloc, one.text)?;
    Ok(Some(Detail::NoSuchId(one.code, id, wanted)))
}

fn count_wanted(search: &Search<'_, '_>, wanted: Wanted, id: &str) -> usize
    requires { HasCounts search.now.ids.now (map shown search.now.rows.now) }
    ensures { result ≡ count_called (class_of wanted) (map shown search.now.rows.now) id.now }
{
    count_named(search.ids, wanted, id)
}

fn unknown_type(
    search: &Search<'_, '_>,
    tag: Tag,
    one: Known<'_>,
) -> Result<Option<Detail>, AllocError>
    ensures { IfOk result (λ found. found ≡ details.unknown_type search.now.prefixes.now search.now.names.now tag (attributes.shown one.entry)) }
{
    if !has_properties(tag) || one.code != at::TYPE {
        return Ok(None);
    }
    if type_of(search.prefixes, search.names, one.text)?.is_some() {
        return Ok(None);
    }
    let written = Word::from_str(search.alloc, one.text)?;
    Ok(Some(Detail::UnknownType(written)))
}
