//! The submissions of a form.

ghost use Rattle.std.specs.HashMap.{get};
ghost use Rattle.std.specs.Prelude.{◌≡◌, ℕ, ◌==◌, List, IfOk, OnOk, map, nat_eq};
ghost use Rattle.xf_def_syntax.specs.declared.form.Submission.{Submission as Sent};
ghost use Rattle.xf_form_refusals.specs.Rows.{shown};
ghost use Rattle.xf_form_vocabulary.specs.Attributes as attributes;
ghost use Rattle.xf_form.specs.Plan.{IsPlan, AreFirsts, first_or};
ghost use Rattle.xf_form.specs.Submissions as submissions;

use crate::models::id_of;
use crate::plan::{Plan, counts_named, instance_at, model_around};
use crate::written::{expr_at, is_text, word_at};
use std::alloc::{AllocError, Global};
use std::collections::HashMap;
use xf_def_syntax::{Method, Replace, Selection, Submission};
use xf_form_refusals::{Row, small};
use xf_form_vocabulary::{Known, attribute as at, known_of, text_of};
use xf_name::Word;

/// The submission that the element at a place is.
pub fn submission_of(
    plan: &Plan<'_, '_>,
    place: u32,
    row: &Row<'_>,
) -> Result<Submission, AllocError>
    requires { IsPlan plan.now }
    ensures { IfOk result (λ one. one ≡ submissions.submission_of plan.now.decimals plan.now.prefixes.now (map shown plan.now.rows.now) place (shown row.now)) }
{
    let element = row.element;
    let known = known_of(plan.alloc, plan.prefixes, element.attributes.as_slice())?;
    submission_by(plan, place, row, &known)
}

fn submission_by(
    plan: &Plan<'_, '_>,
    place: u32,
    row: &Row<'_>,
    known: &[Known<'_>],
) -> Result<Submission, AllocError>
    requires { IsPlan plan.now }
    ensures { IfOk result (λ one. one ≡ submissions.submission_by plan.now.decimals plan.now.prefixes.now (map shown plan.now.rows.now) place (shown row.now) (map attributes.shown known.now)) }
{
    let is_serialized = is_serialized(known);
    Ok(Submission {
        model: model_around(plan, place),
        id: id_of(plan.alloc, row)?,
        selection: selection_of(plan, known)?,
        is_relevant: truth_or(known, at::RELEVANT, is_serialized),
        is_validated: truth_or(known, at::VALIDATE, is_serialized),
        resource: resource_of(plan.alloc, known)?,
        method: method_of(known),
        replace: replace_of(known),
        instance: instance_at(plan, known, at::INSTANCE),
        target: expr_at(plan, known, at::TARGET_REF)?,
        is_serialized,
    })
}

fn is_serialized(known: &[Known<'_>]) -> bool
    ensures { result ≡ submissions.is_serialized (map attributes.shown known.now) }
{
    !is_text(known, at::SERIALIZATION, "none")
}

fn selection_of(plan: &Plan<'_, '_>, known: &[Known<'_>]) -> Result<Selection, AllocError>
    requires { IsPlan plan.now }
    ensures { IfOk result (λ selection. selection ≡ submissions.selection_of plan.now.decimals plan.now.prefixes.now (map shown plan.now.rows.now) (map attributes.shown known.now)) }
{
    if let Some(id) = text_of(known, at::BIND) {
        return Ok(Selection::Bind(counts_named(plan, id).binds));
    }
    match expr_at(plan, known, at::REF)? {
        Some(expr) => Ok(Selection::Ref(expr)),
        None => Ok(Selection::Whole),
    }
}

fn truth_or(known: &[Known<'_>], code: u16, other: bool) -> bool
    ensures { result ≡ submissions.truth_or other (attributes.text_in code (map attributes.shown known.now)) }
{
    match text_of(known, code) {
        Some(text) => text == "true",
        None => other,
    }
}

fn resource_of(alloc: Global, known: &[Known<'_>]) -> Result<Word, AllocError>
    ensures { IfOk result (λ word. word ≡ submissions.resource_of (map attributes.shown known.now)) }
{
    match text_of(known, at::RESOURCE) {
        Some(text) => Word::from_str(alloc, text),
        None => word_at(alloc, known, at::ACTION),
    }
}

fn method_of(known: &[Known<'_>]) -> Method
    ensures { result ≡ submissions.method_of (map attributes.shown known.now) }
{
    if is_text(known, at::METHOD, "put") {
        return Method::Put;
    }
    if is_text(known, at::METHOD, "post") {
        return Method::Post;
    }
    Method::Get
}

fn replace_of(known: &[Known<'_>]) -> Replace
    ensures { result ≡ submissions.replace_of (map attributes.shown known.now) }
{
    if is_text(known, at::REPLACE, "instance") {
        return Replace::Instance;
    }
    if is_text(known, at::REPLACE, "text") {
        return Replace::Text;
    }
    if is_text(known, at::REPLACE, "none") {
        return Replace::Nothing;
    }
    Replace::All
}

// ---- the first of a model

/// The first submission of each model.
pub type Firsts = HashMap<u32, u32>;

/// The first submission of each model.
pub fn firsts_of(alloc: Global, all: &[Submission]) -> Result<Firsts, AllocError>
    ensures { IfOk result (λ firsts. AreFirsts firsts all.now) }
{
    let mut firsts = HashMap::new(alloc);
    for (number, submission) in all.iter().enumerate() {
        add_first(&mut firsts, submission.model, small(number)?)?;
    }
    Ok(firsts)
}

// The number goes under the model, where none stands there.
fn add_first(firsts: &mut Firsts, model: u32, number: u32) -> Result<(), AllocError>
    ensures { OnOk result ((one : ℕ) → get nat_eq firsts.new one ≡ first_or (get nat_eq firsts.old one) (model == one) number) }
{
    if firsts.get(&model).is_some() {
        return Ok(());
    }
    firsts.insert(model, number)?;
    Ok(())
}

/// The first submission of a model.
pub fn first_of(firsts: &Firsts, model: u32) -> Option<u32>
    ensures { (all : List Sent) → AreFirsts firsts.now all → result ≡ submissions.first_from 0 all model }
{
    firsts.get(&model).copied()
}
