//! The path of an element in a form.

ghost use Rattle.std.specs.Prelude.{◌≡◌, ◌++◌, IfOk, OnOk, map, count_by};
ghost use Rattle.xf_form_refusals.specs.Paths as paths;
ghost use Rattle.xf_form_refusals.specs.Rows.{shown};

use crate::rows::{Row, row_at};
use serde_json::Value;
use std::alloc::{AllocError, Global};
use xf_def_syntax::Part;
use xf_name::{Word, at_colon, is_part};

// How deep elements nest: a form that is read nests less.
const NESTING_LIMIT: u32 = 128;

/// The path of the element at a place.
pub fn path_of(alloc: Global, rows: &[Row<'_>], place: usize) -> Result<Word, AllocError>
    ensures { IfOk result (λ path. path ≡ paths.path_of (map shown rows.now) place) }
{
    let mut path = Word::new(alloc);
    push_path(alloc, rows, place, NESTING_LIMIT, &mut path)?;
    Ok(path)
}

#[tactic(auto, unfolding(crate::specs::Paths::path_to))]
fn push_path(
    alloc: Global,
    rows: &[Row<'_>],
    place: usize,
    depth: u32,
    path: &mut Word,
) -> Result<(), AllocError>
    ensures { OnOk result (path.new ≡ path.old ++ paths.path_to depth (map shown rows.now) place) }
{
    if depth == 0 {
        return Ok(());
    }
    let Some(row) = row_at(rows, place) else {
        return Ok(());
    };
    if let Some(parent) = row.standing.parent {
        push_path(alloc, rows, parent as usize, depth - 1, path)?;
    }
    push_step(alloc, rows, row, place, path)
}

// A step: the name, and its number among its siblings of the same name where there are any.
fn push_step(
    alloc: Global,
    rows: &[Row<'_>],
    row: &Row<'_>,
    place: usize,
    path: &mut Word,
) -> Result<(), AllocError>
    ensures { OnOk result (path.new ≡ path.old ++ paths.step (map shown rows.now) (shown row.now) place) }
{
    let element = row.element;
    let name = element.name.as_str();
    let parts = siblings(rows, row);
    path.push_str("/")?;
    push_name(alloc, name, path)?;
    if count_like(rows, parts, name) <= 1 {
        return Ok(());
    }
    push_in_brackets(alloc, count_up_to(rows, parts, name, place), path)
}

// A name as it is written, any other text as a JSON string.
fn push_name(alloc: Global, name: &str, path: &mut Word) -> Result<(), AllocError>
    ensures { OnOk result (path.new ≡ path.old ++ paths.name_text name.now) }
{
    if is_name(name) {
        return path.push_str(name);
    }
    let quoted = Value::String(String::from_str(alloc, name)?).to_string(alloc)?;
    path.push_str(quoted.as_str())
}

// Whether a text is a name: a part, or a prefix and a part.
fn is_name(text: &str) -> bool
    ensures { result ≡ paths.is_name text.now }
{
    match at_colon(text) {
        Some((prefix, local)) => is_part(prefix) && is_part(local),
        None => is_part(text),
    }
}

fn push_in_brackets(alloc: Global, number: usize, path: &mut Word) -> Result<(), AllocError>
    ensures { OnOk result (path.new ≡ path.old ++ paths.in_brackets number) }
{
    let number = format!(in alloc; "[{number}]")?;
    path.push_str(number.as_str())
}

// What stands beside an element in its parent, itself included.
fn siblings<'s>(rows: &'s [Row<'_>], row: &Row<'_>) -> &'s [Part]
    ensures { result.now ≡ paths.siblings (map shown rows.now) (shown row.now) }
{
    let Some(parent) = row.standing.parent else {
        return &[];
    };
    match row_at(rows, parent as usize) {
        Some(around) => around.parts.as_slice(),
        None => &[],
    }
}

fn count_like(rows: &[Row<'_>], parts: &[Part], name: &str) -> usize
    ensures { result ≡ count_by (paths.is_like (map shown rows.now) name.now) parts.now }
{
    parts
        .iter()
        .filter(|part| is_like(rows, part, name))
        .count()
}

fn count_up_to(rows: &[Row<'_>], parts: &[Part], name: &str, place: usize) -> usize
    ensures { result ≡ count_by (paths.is_like_up_to (map shown rows.now) name.now place) parts.now }
{
    parts
        .iter()
        .filter(|part| is_like_up_to(rows, part, name, place))
        .count()
}

// Whether it is an element of the name.
fn is_like(rows: &[Row<'_>], part: &Part, name: &str) -> bool
    ensures { result ≡ paths.is_like (map shown rows.now) name.now part.now }
{
    match part {
        Part::Text(_) => false,
        Part::Element(place) => is_named(rows, *place as usize, name),
    }
}

// Whether it is one that stands no later than the place.
fn is_like_up_to(rows: &[Row<'_>], part: &Part, name: &str, end: usize) -> bool
    ensures { result ≡ paths.is_like_up_to (map shown rows.now) name.now end part.now }
{
    match part {
        Part::Text(_) => false,
        Part::Element(place) => { *place as usize <= end && is_named(rows, *place as usize, name) }
    }
}

fn is_named(rows: &[Row<'_>], place: usize, name: &str) -> bool
    ensures { result ≡ paths.is_named (map shown rows.now) name.now place }
{
    match row_at(rows, place) {
        Some(row) => {
            let element = row.element;
            element.name.is(name)
        }
        None => false,
    }
}
