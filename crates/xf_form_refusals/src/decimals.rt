//! How many decimals the numbers of a form have.

ghost use Rattle.std.specs.Prelude.{◌≡◌, IfOk, map, option_map};
ghost use Rattle.xf_form_refusals.specs.Decimals as decimals;
ghost use Rattle.xf_form_refusals.specs.Rows.{shown};

use crate::classes::{Class, is_of};
use crate::rows::Row;
use std::alloc::{AllocError, Global};
use xf_form_vocabulary::{attribute as at, decimals_in, known_of, text_of};
use xf_name::Prefixes;
use xf_num::Decimals;

/// How many decimals the numbers of a form have, which its first model chooses.
pub fn decimals_of(
    alloc: Global,
    prefixes: &Prefixes,
    rows: &[Row<'_>],
) -> Result<Decimals, AllocError>
    ensures { IfOk result (λ count. count ≡ decimals.decimals_of prefixes.now (map shown rows.now)) }
{
    for row in rows {
        if is_of(Class::Model, row) {
            return chosen_by(alloc, prefixes, row);
        }
    }
    Ok(Decimals::usual())
}

/// What a model chooses.
fn chosen_by(alloc: Global, prefixes: &Prefixes, row: &Row<'_>) -> Result<Decimals, AllocError>
    ensures { IfOk result (λ count. count ≡ decimals.chosen_by prefixes.now (shown row.now)) }
{
    let element = row.element;
    let known = known_of(alloc, prefixes, element.attributes.as_slice())?;
    Ok(chosen_in(text_of(&known, at::DECIMALS)))
}

fn chosen_in(text: Option<&str>) -> Decimals
    ensures { result ≡ decimals.chosen_in (option_map (λ t. t.now) text.entry) }
{
    match text {
        Some(text) => decimals_in(text).unwrap_or(Decimals::usual()),
        None => Decimals::usual(),
    }
}
