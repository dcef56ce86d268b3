//! Loading a form.

ghost use Rattle.std.specs.Prelude.{◌≡◌, IfOk, map};
ghost use Rattle.xf_base.specs.Gives.{Gives};
ghost use Rattle.xf_name.specs.Survey.{surveyed};
ghost use Rattle.xf_form_refusals.specs.Rows.{shown};
ghost use Rattle.xf_form.specs.Loading as loading;

use crate::data::data_limit;
use crate::fault::FormFault;
use crate::loaded::Loaded;
use crate::tables::form_of;
use std::alloc::{AllocError, Global};
use xf_base::limits::FORM_LIMIT;
use xf_def_syntax::Form;
use xf_form_refusals::{Row, bad_schema_of, refusal_of, rows_of};
use xf_json::{JsonFault, read};
use xf_name::{Lit, Prefixes, SurveyFault, Word, survey};

/// The form that bytes spell, or its first refusal.
pub fn load(alloc: Global, bytes: &[u8]) -> Result<Loaded, FormFault>
    ensures { Gives FormFault.Memory (λ loaded. loaded) result (loading.loaded_in bytes.now) }
{
    if bytes.len() > FORM_LIMIT {
        return Err(FormFault::Refused(2, Word::new(alloc)));
    }
    match read(alloc, bytes) {
        Ok(lit) => load_lit(alloc, lit),
        Err(JsonFault::NotJson) => Err(FormFault::Refused(1, Word::new(alloc))),
        Err(JsonFault::NotElement) => Err(FormFault::Refused(3, Word::new(alloc))),
        Err(JsonFault::Memory) => Err(FormFault::Memory),
    }
}

fn load_lit(alloc: Global, lit: Lit) -> Result<Loaded, FormFault>
    ensures { Gives FormFault.Memory (λ loaded. loaded) result (loading.by_names lit (surveyed lit)) }
{
    let prefixes = match survey(alloc, &lit) {
        Ok(surveyed) => surveyed.prefixes,
        Err(SurveyFault::TooMany) => return Err(limit(alloc, "counts")?),
        Err(SurveyFault::Memory) => return Err(FormFault::Memory),
    };
    match tables_in(alloc, &prefixes, &lit) {
        Ok(form) => Ok(Loaded {
            form,
            prefixes,
            lit,
        }),
        Err(fault) => Err(fault),
    }
}

// A limit that is passed, by its word.
fn limit(alloc: Global, word: &str) -> Result<FormFault, AllocError>
    ensures { IfOk result (λ fault. fault ≡ FormFault.Refused 17 word.now) }
{
    Ok(FormFault::Refused(17, Word::from_str(alloc, word)?))
}

// The tables of a tree under its prefixes, or its first refusal.
fn tables_in(alloc: Global, prefixes: &Prefixes, lit: &Lit) -> Result<Form, FormFault>
    ensures { Gives FormFault.Memory (λ form. form) result (loading.tables_in prefixes.now lit.now) }
{
    let rows = rows_of(alloc, prefixes, lit)?;
    by_rows(alloc, prefixes, lit, &rows)
}

fn by_rows(
    alloc: Global,
    prefixes: &Prefixes,
    lit: &Lit,
    rows: &[Row<'_>],
) -> Result<Form, FormFault>
    ensures { Gives FormFault.Memory (λ form. form) result (loading.by_rows prefixes.now lit.now (map shown rows.now)) }
{
    if let Some((number, place)) = refusal_of(alloc, prefixes, rows)? {
        return Err(FormFault::Refused(number, place));
    }
    by_form(alloc, form_of(alloc, prefixes, rows)?, lit, rows)
}

fn by_form(alloc: Global, form: Form, lit: &Lit, rows: &[Row<'_>]) -> Result<Form, FormFault>
    ensures { Gives FormFault.Memory (λ form. form) result (loading.by_form form lit.now (map shown rows.now)) }
{
    if let Some(word) = data_limit(lit, form.tables.instances.as_slice())? {
        return Err(limit(alloc, word)?);
    }
    if let Some(path) = bad_schema_of(alloc, rows, form.tables.types.as_slice())? {
        return Err(FormFault::Refused(20, path));
    }
    Ok(form)
}
