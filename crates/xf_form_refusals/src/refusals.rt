//! The first refusal of a form.

ghost use Rattle.std.specs.Prelude.{◌≡◌, IfOk, map, count_by};
ghost use Rattle.std.specs.List.{list_any};
ghost use Rattle.xf_form_vocabulary.specs.Attributes as attributes;
ghost use Rattle.xf_form_vocabulary.specs.Faults as faults;
ghost use Rattle.xf_form_refusals.specs.Classes.{is_called};
ghost use Rattle.xf_form_refusals.specs.Refusals as refusals;
ghost use Rattle.xf_form_refusals.specs.Refused as refused;
ghost use Rattle.xf_form_refusals.specs.Rows.{is_handler, shown};
ghost use Rattle.xf_form_refusals.specs.Schemas.{names_of};
ghost use Rattle.xf_form_refusals.specs.Tally.{HasCounts};

use crate::classes::{Class, class_of, is_case, is_model, is_of, is_switch};
use crate::decimals::decimals_of;
use crate::ids::{Ids, called, ids_of};
use crate::limits::limit_of;
use crate::paths::path_of;
use crate::rows::{Row, id_in, is_handler, tag_in};
use crate::schemas::{first_strange, names_of};
use crate::standing::{is_instance, is_outside};
use crate::walk::small;
use std::alloc::{AllocError, Global};
use xf_def_syntax::Part;
use xf_form_vocabulary::{
    Known, Tag, has_bad_expression, has_bad_text, has_bad_type, has_moving_expression, known_of,
    lacks, may_stand, wanted_of,
};
use xf_name::{NameFault, Prefixes, Word};
use xf_num::Decimals;
use xf_schema::{Restriction, TypeName, first_bad};

/// Where a form is refused, and by which number.
#[derive(Clone, Copy, Debug, PartialEq, Eq)]
pub struct Refusal {
    pub place: usize,
    pub number: u8,
}

// ---- what stands in an element

/// Whether one of these parts is an instance.
pub fn has_instance(rows: &[Row<'_>], parts: &[Part]) -> bool
    ensures { result ≡ list_any (refusals.is_instance_in (map shown rows.now)) parts.now }
{
    for part in parts {
        if is_instance(tag_in(rows, part)) {
            return true;
        }
    }
    false
}

/// Whether one of these parts is a case.
pub fn has_case(rows: &[Row<'_>], parts: &[Part]) -> bool
    ensures { result ≡ list_any (refusals.is_case_in (map shown rows.now)) parts.now }
{
    for part in parts {
        if is_case(tag_in(rows, part)) {
            return true;
        }
    }
    false
}

fn is_element(part: &Part) -> bool
    ensures { result ≡ refusals.is_element part.now }
{
    match part {
        Part::Text(_) => false,
        Part::Element(_) => true,
    }
}

/// How many of these parts are elements.
pub fn count_elements(parts: &[Part]) -> usize
    ensures { result ≡ count_by refusals.is_element parts.now }
{
    parts.iter().filter(|part| is_element(part)).count()
}

// ---- refusals of an element

/// Whether there is no model, at the root, or the element is a model without an instance.
fn lacks_model(rows: &[Row<'_>], row: &Row<'_>, place: usize, first: Option<usize>) -> bool
    ensures { result ≡ refusals.lacks_model (map shown rows.now) first place (shown row.now) }
{
    (place == 0 && first.is_none()) || (is_model(row.tag) && !has_instance(rows, &row.parts))
}

fn is_misplaced(rows: &[Row<'_>], row: &Row<'_>) -> bool
    ensures { result ≡ refusals.is_misplaced (map shown rows.now) (shown row.now) }
{
    !may_stand(row.tag, row.standing.around)
        || (is_instance(row.tag) && count_elements(&row.parts) != 1)
        || (is_switch(row.tag) && !has_case(rows, &row.parts))
}

fn has_bad_attribute(row: &Row<'_>, known: &[Known<'_>]) -> bool
    ensures { result ≡ refusals.has_bad_attribute (shown row.now) (map attributes.shown known.now) }
{
    let handles = is_handler(row);
    has_bad_text(row.tag, handles, known) || lacks(row.tag, handles, known)
}

fn is_at(first: Option<usize>, place: usize) -> bool
    ensures { result ≡ refusals.is_at first place }
{
    match first {
        Some(first) => first == place,
        None => false,
    }
}

/// Whether it is a model behind the first, whose texts choose nothing.
fn is_later_model(first: Option<usize>, row: &Row<'_>, place: usize) -> bool
    ensures { result ≡ refusals.is_later_model first place (shown row.now) }
{
    is_model(row.tag) && !is_at(first, place)
}

fn shares_id(ids: &Ids<'_>, rows: &[Row<'_>], row: &Row<'_>) -> bool
    requires { HasCounts ids.now (map shown rows.now) }
    ensures { result ≡ refusals.shares_id (map shown rows.now) (shown row.now) }
{
    let element = row.element;
    match id_in(element.attributes.as_slice()) {
        None => false,
        Some(id) => called(ids, Class::Outside, id) > 1,
    }
}

fn names_nothing_by(ids: &Ids<'_>, rows: &[Row<'_>], row: &Row<'_>, one: Known<'_>) -> bool
    requires { HasCounts ids.now (map shown rows.now) }
    ensures { result ≡ refusals.names_nothing_by (map shown rows.now) row.now.tag (is_handler (shown row.now)) (attributes.shown one.entry) }
{
    let handles = is_handler(row);
    match wanted_of(row.tag, handles, one.code) {
        None => false,
        Some(wanted) => called(ids, class_of(wanted), one.text) == 0,
    }
}

fn names_nothing(ids: &Ids<'_>, rows: &[Row<'_>], row: &Row<'_>, known: &[Known<'_>]) -> bool
    requires { HasCounts ids.now (map shown rows.now) }
    ensures { result ≡ refusals.names_nothing (map shown rows.now) (shown row.now) (map attributes.shown known.now) }
{
    for one in known {
        if names_nothing_by(ids, rows, row, *one) {
            return true;
        }
    }
    false
}

/// What refusals of elements are told by.
#[derive(Clone, Copy)]
pub struct Search<'s, 'a> {
    pub alloc: Global,
    pub prefixes: &'s Prefixes,
    pub rows: &'s [Row<'a>],
    pub ids: &'s Ids<'a>,
    /// Those of the types of all schemas.
    pub names: &'s [TypeName],
    /// The place of the first model.
    pub first_model: Option<usize>,
}

fn has_bad_expression_in(
    search: Search<'_, '_>,
    row: &Row<'_>,
    known: &[Known<'_>],
    decimals: Decimals,
) -> Result<bool, AllocError>
    ensures { IfOk result (λ found. found ≡ list_any (faults.is_bad_expression decimals search.entry.prefixes.now row.now.tag) (map attributes.shown known.now)) }
{
    has_bad_expression(search.alloc, search.prefixes, row.tag, known, decimals)
}

fn has_moving_expression_in(
    search: Search<'_, '_>,
    row: &Row<'_>,
    known: &[Known<'_>],
    decimals: Decimals,
) -> Result<bool, AllocError>
    ensures { IfOk result (λ found. found ≡ list_any (faults.is_moving_expression decimals search.entry.prefixes.now row.now.tag) (map attributes.shown known.now)) }
{
    has_moving_expression(search.alloc, search.prefixes, row.tag, known, decimals)
}

/// The least refusal of an element outside instances, but for those of its names.
fn own_refusal(
    search: Search<'_, '_>,
    row: &Row<'_>,
    place: usize,
    decimals: Decimals,
) -> Result<Option<u8>, AllocError>
    requires counts { HasCounts search.ids.now (map shown search.rows.now) }
    requires names { search.names.now ≡ names_of (map shown search.rows.now) }
    ensures { IfOk result (λ number. number ≡ refusals.own_refusal decimals search.entry.prefixes.now (map shown search.entry.rows.now) search.entry.first_model place (shown row.now)) }
{
    let element = row.element;
    let known = known_of(search.alloc, search.prefixes, element.attributes.as_slice())?;
    if lacks_model(search.rows, row, place, search.first_model) {
        return Ok(Some(6));
    }
    if has_bad_expression_in(search, row, &known, decimals)? {
        return Ok(Some(7));
    }
    if has_moving_expression_in(search, row, &known, decimals)? {
        return Ok(Some(8));
    }
    if is_misplaced(search.rows, row) {
        return Ok(Some(9));
    }
    if !is_later_model(search.first_model, row, place) && has_bad_attribute(row, &known) {
        return Ok(Some(10));
    }
    if shares_id(search.ids, search.rows, row) {
        return Ok(Some(11));
    }
    if names_nothing(search.ids, search.rows, row, &known) {
        return Ok(Some(12));
    }
    if has_bad_type(search.prefixes, search.names, row.tag, &known)? {
        return Ok(Some(13));
    }
    Ok(None)
}

fn number_of_fault(fault: NameFault) -> u8
    ensures { result ≡ refusals.number_of_fault fault }
{
    match fault {
        NameFault::BadName => 4,
        _ => 5,
    }
}

/// The least refusal of an element.
fn refusal_at(
    search: Search<'_, '_>,
    row: &Row<'_>,
    place: usize,
    decimals: Decimals,
) -> Result<Option<u8>, AllocError>
    requires counts { HasCounts search.ids.now (map shown search.rows.now) }
    requires names { search.names.now ≡ names_of (map shown search.rows.now) }
    ensures { IfOk result (λ number. number ≡ refusals.refusal_at decimals search.entry.prefixes.now (map shown search.entry.rows.now) search.entry.first_model place (shown row.now)) }
{
    if let Some(fault) = search.prefixes.fault_of(row.element)? {
        return Ok(Some(number_of_fault(fault)));
    }
    if !is_outside(row.standing.zone) {
        return Ok(None);
    }
    own_refusal(search, row, place, decimals)
}

/// The place of the first model.
pub fn first_model(rows: &[Row<'_>]) -> Option<usize>
    ensures { result ≡ refusals.first_model (map shown rows.now) }
{
    for (place, row) in rows.iter().enumerate() {
        if is_of(Class::Model, row) {
            return Some(place);
        }
    }
    None
}

/// The first refusal of the form's elements.
pub fn first_refusal(
    alloc: Global,
    prefixes: &Prefixes,
    rows: &[Row<'_>],
) -> Result<Option<Refusal>, AllocError>
    ensures { IfOk result (λ found. found ≡ refusals.first_refusal prefixes.now (map shown rows.now)) }
{
    let decimals = decimals_of(alloc, prefixes, rows)?;
    let ids = ids_of(alloc, rows)?;
    let names = names_of(alloc, rows)?;
    let search = Search {
        alloc,
        prefixes,
        rows,
        ids: &ids,
        names: names.as_slice(),
        first_model: first_model(rows),
    };
    for (place, row) in rows.iter().enumerate() {
        if let Some(number) = refusal_at(search, row, place, decimals)? {
            return Ok(Some(Refusal { place, number }));
        }
    }
    Ok(None)
}

// ---- the form

fn place_of(alloc: Global, rows: &[Row<'_>], found: Refusal) -> Result<Word, AllocError>
    ensures { IfOk result (λ place. place ≡ refused.place_of (map shown rows.now) found) }
{
    if found.number == 6 {
        return Ok(Word::new(alloc));
    }
    path_of(alloc, rows, found.place)
}

/// The first refusal of a form by its elements: its number, and its place, which for a limit is its word.
pub fn refusal_of(
    alloc: Global,
    prefixes: &Prefixes,
    rows: &[Row<'_>],
) -> Result<Option<(u8, Word)>, AllocError>
    ensures { IfOk result (λ found. found ≡ refused.refusal_of prefixes.now (map shown rows.now)) }
{
    if let Some(found) = first_refusal(alloc, prefixes, rows)? {
        return Ok(Some((found.number, place_of(alloc, rows, found)?)));
    }
    if let Some(word) = limit_of(rows) {
        return Ok(Some((17, Word::from_str(alloc, word)?)));
    }
    Ok(None)
}

/// The path of the first bad element of the schemas, where these are their types.
pub fn bad_schema_of(
    alloc: Global,
    rows: &[Row<'_>],
    types: &[Restriction],
) -> Result<Option<Word>, AllocError>
    ensures { IfOk result (λ path. path ≡ refused.bad_schema_of (map shown rows.now) types.now) }
{
    let strange = place_in(first_strange(rows))?;
    match first_bad(types, strange) {
        Some(place) => Ok(Some(path_of(alloc, rows, place as usize)?)),
        None => Ok(None),
    }
}

fn place_in(place: Option<usize>) -> Result<Option<u32>, AllocError>
    ensures { IfOk result (λ same. same ≡ place) }
{
    match place {
        Some(place) => Ok(Some(small(place)?)),
        None => Ok(None),
    }
}
