//! The tables of a form.

ghost use Rattle.std.specs.Prelude.{◌≡◌, IfOk, map};
ghost use Rattle.xf_form_refusals.specs.Limits.{count_of};
ghost use Rattle.xf_form_refusals.specs.Rows.{shown};
ghost use Rattle.xf_form_refusals.specs.declared.classes.Class.TheVariants as class;
ghost use Rattle.xf_form.specs.Plan.{IsPlan, AreFirsts};
ghost use Rattle.xf_form.specs.Scopes as scope;
ghost use Rattle.xf_form.specs.Tables as tables;

use crate::counts::numbers_of;
use crate::elements::element_of;
use crate::models::{bind_of, instance_of};
use crate::plan::{Plan, number_of};
use crate::scopes::{model_at, models_of, scopes_of};
use crate::submissions::{Firsts, first_of, firsts_of, submission_of};
use crate::targets::targets_of;
use std::alloc::{AllocError, Global};
use xf_base::Items;
use xf_def_syntax::{
    BindList, ElementList, Elements, Form, InstanceList, Submission, SubmissionList, Tables,
};
use xf_form_refusals::{Class, Row, decimals_of, is_of, names_of, small, types_of};
use xf_name::Prefixes;

/// The tables of a form that is not refused.
pub fn form_of<'x>(
    alloc: Global,
    prefixes: &'x Prefixes,
    rows: &'x [Row<'_>],
) -> Result<Form, AllocError>
    ensures { IfOk result (λ form. form ≡ tables.form_of prefixes.now (map shown rows.now)) }
{
    let numbers = numbers_of(alloc, rows)?;
    let targets = targets_of(alloc, rows)?;
    let models = models_of(alloc, rows, &numbers)?;
    let decimals = decimals_of(alloc, prefixes, rows)?;
    let names = names_of(alloc, rows)?;
    let plan = Plan {
        alloc,
        prefixes,
        rows,
        numbers: &numbers,
        targets: &targets,
        models: &models,
        decimals,
        names: names.as_slice(),
    };
    form_by(&plan)
}

fn form_by(plan: &Plan<'_, '_>) -> Result<Form, AllocError>
    requires { IsPlan plan.now }
    ensures { IfOk result (λ form. form ≡ tables.form_with plan.now.decimals plan.now.prefixes.now (map shown plan.now.rows.now)) }
{
    let tables = tables_of(plan)?;
    let elements = all_elements(plan, tables.submissions.as_slice())?;
    Ok(Form {
        decimals: plan.decimals,
        tables,
        elements,
        models: listed(plan, Class::Model)?,
        instances: listed(plan, Class::Instance)?,
        binds: listed(plan, Class::Bind)?,
        submissions: listed(plan, Class::Submission)?,
        repeats: listed(plan, Class::Repeat)?,
        switches: listed(plan, Class::Switch)?,
    })
}

fn tables_of(plan: &Plan<'_, '_>) -> Result<Tables, AllocError>
    requires { IsPlan plan.now }
    ensures { IfOk result (λ all. all ≡ tables.tables_of plan.now.decimals plan.now.prefixes.now (map shown plan.now.rows.now)) }
{
    Ok(Tables {
        models: count_models(plan.rows)?,
        instances: instances_of(plan)?,
        binds: binds_of(plan)?,
        submissions: submissions_of(plan)?,
        types: types_of(plan.alloc, plan.prefixes, plan.rows, plan.names)?,
    })
}

fn count_models(rows: &[Row<'_>]) -> Result<u32, AllocError>
    ensures { IfOk result (λ count. count ≡ count_of class.Model (map shown rows.now)) }
{
    small(rows.iter().filter(|row| is_of(Class::Model, row)).count())
}

fn instances_of(plan: &Plan<'_, '_>) -> Result<InstanceList, AllocError>
    requires { IsPlan plan.now }
    ensures { IfOk result (λ all. all ≡ tables.instances_of (map shown plan.now.rows.now)) }
{
    let mut all = Items::new(plan.alloc);
    for (place, row) in plan.rows.iter().enumerate() {
        if is_of(Class::Instance, row) {
            all.push(instance_of(plan, small(place)?, row)?)?;
        }
    }
    Ok(all)
}

fn binds_of(plan: &Plan<'_, '_>) -> Result<BindList, AllocError>
    requires { IsPlan plan.now }
    ensures { IfOk result (λ all. all ≡ tables.binds_of plan.now.decimals plan.now.prefixes.now (map shown plan.now.rows.now)) }
{
    let mut all = Items::new(plan.alloc);
    for (place, row) in plan.rows.iter().enumerate() {
        if is_of(Class::Bind, row) {
            all.push(bind_of(plan, small(place)?, row)?)?;
        }
    }
    Ok(all)
}

fn submissions_of(plan: &Plan<'_, '_>) -> Result<SubmissionList, AllocError>
    requires { IsPlan plan.now }
    ensures { IfOk result (λ all. all ≡ tables.submissions_of plan.now.decimals plan.now.prefixes.now (map shown plan.now.rows.now)) }
{
    let mut all = Items::new(plan.alloc);
    for (place, row) in plan.rows.iter().enumerate() {
        if is_of(Class::Submission, row) {
            all.push(submission_of(plan, small(place)?, row)?)?;
        }
    }
    Ok(all)
}

// The numbers of the elements of a kind.
fn listed(plan: &Plan<'_, '_>, class: Class) -> Result<ElementList, AllocError>
    requires { IsPlan plan.now }
    ensures { IfOk result (λ all. all ≡ tables.listed class (map shown plan.now.rows.now)) }
{
    let mut all = Items::new(plan.alloc);
    for (place, row) in plan.rows.iter().enumerate() {
        if is_of(class, row) {
            all.push(number_of(plan, small(place)?))?;
        }
    }
    Ok(all)
}

// ---- elements

fn all_elements(plan: &Plan<'_, '_>, submissions: &[Submission]) -> Result<Elements, AllocError>
    requires plan { IsPlan plan.now }
    requires submissions { submissions.now ≡ tables.submissions_of plan.now.decimals plan.now.prefixes.now (map shown plan.now.rows.now) }
    ensures { IfOk result (λ all. all ≡ tables.elements_of plan.now.decimals plan.now.prefixes.now (map shown plan.now.rows.now)) }
{
    let scopes = scopes_of(plan)?;
    let firsts = firsts_of(plan.alloc, submissions)?;
    elements_of(plan, &scopes, &firsts)
}

// The first submission of the model in scope.
fn first_at(plan: &Plan<'_, '_>, scopes: &[u32], firsts: &Firsts, place: u32) -> Option<u32>
    requires scopes { scopes.now ≡ scope.scopes_of plan.now.prefixes.now (map shown plan.now.rows.now) }
    requires firsts { AreFirsts firsts.now (tables.submissions_of plan.now.decimals plan.now.prefixes.now (map shown plan.now.rows.now)) }
    ensures { result ≡ tables.first_at plan.now.decimals plan.now.prefixes.now (map shown plan.now.rows.now) place }
{
    first_of(firsts, model_at(scopes, place))
}

fn elements_of(plan: &Plan<'_, '_>, scopes: &[u32], firsts: &Firsts) -> Result<Elements, AllocError>
    requires plan { IsPlan plan.now }
    requires scopes { scopes.now ≡ scope.scopes_of plan.now.prefixes.now (map shown plan.now.rows.now) }
    requires firsts { AreFirsts firsts.now (tables.submissions_of plan.now.decimals plan.now.prefixes.now (map shown plan.now.rows.now)) }
    ensures { IfOk result (λ all. all ≡ tables.elements_of plan.now.decimals plan.now.prefixes.now (map shown plan.now.rows.now)) }
{
    let mut all = Items::new(plan.alloc);
    for (place, row) in plan.rows.iter().enumerate() {
        if is_of(Class::Numbered, row) {
            let place = small(place)?;
            let first = first_at(plan, scopes, firsts, place);
            all.push(element_of(plan, first, place, row)?)?;
        }
    }
    Ok(all)
}
