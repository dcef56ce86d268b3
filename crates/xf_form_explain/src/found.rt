//! What is known of the refusal of a form.

ghost use Rattle.std.specs.Prelude.{◌≡◌, IfOk, map};
ghost use Rattle.xf_form_refusals.specs.Refusals as refusals;
ghost use Rattle.xf_form_refusals.specs.Rows.{shown};
ghost use Rattle.xf_name.specs.Survey.{surveyed};
ghost use Rattle.xf_form_explain.specs.Explained as explained;

use crate::detail::Detail;
use crate::elements::first_detail;
use crate::ids::ids_of;
use crate::search::Search;
use crate::unread::unread;
use std::alloc::{AllocError, Global};
use xf_form_refusals::{Class, Row, decimals_of, is_of, names_of, rows_of};
use xf_json::{JsonFault, read};
use xf_name::{Lit, Prefixes, SurveyFault, Word, survey};

/// What is known of the refusal of bytes, beyond its number and its place.
pub fn detail_of(alloc: Global, form: &[u8], number: u8, place: &Word) -> Result<Detail, AllocError>
    ensures { IfOk result (explained.IsDetail form.now number place.now) }
{
    if number == 1 {
        return unread(alloc, form);
    }
    if number == 2 {
        return Ok(Detail::TooLarge);
    }
    if number == 3 {
        return Ok(Detail::NotElement);
    }
    if number == 20 {
        return Ok(Detail::BadSchema);
    }
    if number == 17 {
        return Ok(Detail::Passed(Word::from_str(alloc, place.as_str())?));
    }
    by_bytes(alloc, form, number)
}

fn by_bytes(alloc: Global, form: &[u8], number: u8) -> Result<Detail, AllocError>
    ensures { IfOk result (λ detail. detail ≡ explained.by_bytes number form.now) }
{
    match read(alloc, form) {
        Ok(lit) => by_lit(alloc, &lit, number),
        Err(JsonFault::Memory) => Err(AllocError),
        Err(_) => Ok(Detail::Nothing),
    }
}

fn by_lit(alloc: Global, lit: &Lit, number: u8) -> Result<Detail, AllocError>
    ensures { IfOk result (λ detail. detail ≡ explained.by_names number lit.now (surveyed lit.now)) }
{
    match survey(alloc, lit) {
        Ok(surveyed) => by_names(alloc, &surveyed.prefixes, lit, number),
        Err(SurveyFault::Memory) => Err(AllocError),
        Err(SurveyFault::TooMany) => Ok(Detail::Nothing),
    }
}

fn by_names(alloc: Global, prefixes: &Prefixes, lit: &Lit, number: u8) -> Result<Detail, AllocError>
    ensures { IfOk result (λ detail. detail ≡ explained.by_lit number prefixes.now lit.now) }
{
    let rows = rows_of(alloc, prefixes, lit)?;
    by_rows(alloc, prefixes, &rows, number)
}

fn by_rows(
    alloc: Global,
    prefixes: &Prefixes,
    rows: &[Row<'_>],
    number: u8,
) -> Result<Detail, AllocError>
    ensures { IfOk result (λ detail. detail ≡ explained.by_rows number prefixes.now (map shown rows.now)) }
{
    let decimals = decimals_of(alloc, prefixes, rows)?;
    let ids = ids_of(alloc, rows)?;
    let names = names_of(alloc, rows)?;
    let search = Search {
        alloc,
        number,
        prefixes,
        rows,
        ids: &ids,
        names: names.as_slice(),
        decimals,
        first_model: first_model(rows),
    };
    match first_detail(&search)? {
        Some(detail) => Ok(detail),
        None => Ok(Detail::Nothing),
    }
}

fn first_model(rows: &[Row<'_>]) -> Option<usize>
    ensures { result ≡ refusals.first_model (map shown rows.now) }
{
    for (place, row) in rows.iter().enumerate() {
        if is_of(Class::Model, row) {
            return Some(place);
        }
    }
    None
}
