//! The model in scope at each element.

ghost use Rattle.std.specs.Prelude.{◌≡◌, [], IfOk, map, slice_get, unwrap_or};
ghost use Rattle.xf_form_refusals.specs.Rows.{shown};
ghost use Rattle.xf_form.specs.Counts.{AreNumbers};
ghost use Rattle.xf_form.specs.Plan.{may_name, IsPlan};
ghost use Rattle.xf_form.specs.Scopes as scopes;

use crate::counts::{Numbers, counts_at};
use crate::plan::{Plan, counts_named, model_around};
use crate::targets::place_named;
use crate::written::id_at;
use std::alloc::{AllocError, Global};
use xf_form_refusals::{Class, Row, is_of, small};
use xf_form_vocabulary::{Tag, attribute as at, known_of, wanted_of};

/// What an element has itself, else what that around it has.
fn given_by(before: &[u32], own: Option<u32>, parent: Option<u32>) -> u32
    ensures { result ≡ scopes.given_by before.now own parent }
{
    if let Some(own) = own {
        return own;
    }
    match parent {
        Some(parent) => model_at(before, parent),
        None => 0,
    }
}

/// The model at a place: 0 where there is none.
pub fn model_at(models: &[u32], place: u32) -> u32
    ensures { result ≡ unwrap_or (slice_get models.now place) 0 }
{
    match models.get(place as usize) {
        Some(model) => *model,
        None => 0,
    }
}

// ---- the model around

/// The number of the element, where it is a model.
pub fn own_model(numbers: &Numbers, rows: &[Row<'_>], place: u32, row: &Row<'_>) -> Option<u32>
    requires { AreNumbers numbers.now (map shown rows.now) }
    ensures { result ≡ scopes.own_model (map shown rows.now) place (shown row.now) }
{
    if is_of(Class::Model, row) {
        return Some(counts_at(numbers, place).models);
    }
    None
}

/// The number of the nearest model around each element, itself included.
pub fn models_of(alloc: Global, rows: &[Row<'_>], numbers: &Numbers) -> Result<Vec<u32>, AllocError>
    requires { AreNumbers numbers.now (map shown rows.now) }
    ensures { IfOk result (λ models. models.items ≡ scopes.models_of (map shown rows.now)) }
{
    let mut models = Vec::with_capacity(alloc, rows.len())?;
    for (place, row) in rows.iter().enumerate() {
        let own = own_model(numbers, rows, small(place)?, row);
        let model = given_by(&models, own, row.standing.parent);
        models.push(model)?;
    }
    Ok(models)
}

// ---- the model in scope

/// Whether its attributes may name the model in scope.
fn may_name(tag: Tag) -> bool
    ensures { result ≡ may_name tag }
{
    wanted_of(tag, false, at::BIND).is_some() || wanted_of(tag, false, at::MODEL).is_some()
}

fn own_scope(plan: &Plan<'_, '_>, place: u32, row: &Row<'_>) -> Result<Option<u32>, AllocError>
    requires { IsPlan plan.now }
    ensures { IfOk result (λ scope. scope ≡ scopes.own_scope plan.now.prefixes.now (map shown plan.now.rows.now) place (shown row.now)) }
{
    if !may_name(row.tag) {
        return Ok(own_model(plan.numbers, plan.rows, place, row));
    }
    let element = row.element;
    let known = known_of(plan.alloc, plan.prefixes, element.attributes.as_slice())?;
    if let Some(bind) = id_at(row.tag, &known, at::BIND) {
        return Ok(Some(model_around(plan, place_named(plan.targets, bind))));
    }
    if let Some(model) = id_at(row.tag, &known, at::MODEL) {
        return Ok(Some(counts_named(plan, model).models));
    }
    Ok(own_model(plan.numbers, plan.rows, place, row))
}

/// The model in scope at each element: that of its bind, else the one it names, else that of the element around.
pub fn scopes_of(plan: &Plan<'_, '_>) -> Result<Vec<u32>, AllocError>
    requires { IsPlan plan.now }
    ensures { IfOk result (λ all. all.items ≡ scopes.scopes_of plan.now.prefixes.now (map shown plan.now.rows.now)) }
{
    let mut all = Vec::with_capacity(plan.alloc, plan.rows.len())?;
    for (place, row) in plan.rows.iter().enumerate() {
        let own = own_scope(plan, small(place)?, row)?;
        let scope = given_by(&all, own, row.standing.parent);
        all.push(scope)?;
    }
    Ok(all)
}
