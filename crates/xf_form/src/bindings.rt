//! What the elements of a form bind.

ghost use Rattle.std.specs.Prelude.{◌≡◌, IfOk, map};
ghost use Rattle.xf_form_refusals.specs.Rows.{shown};
ghost use Rattle.xf_form_vocabulary.specs.Attributes as attributes;
ghost use Rattle.xf_form.specs.Elements as elements;
ghost use Rattle.xf_form.specs.Plan.{IsPlan};

use crate::plan::{Plan, counts_named};
use crate::written::{expr_at, id_at};
use std::alloc::AllocError;
use xf_def_syntax::Binding;
use xf_form_vocabulary::{Known, Tag, attribute as at, is_expression};

/// What an element of this kind binds. What a bind and a submission select stands in their tables.
pub fn binding_of(plan: &Plan<'_, '_>, tag: Tag, known: &[Known<'_>]) -> Result<Binding, AllocError>
    requires { IsPlan plan.now }
    ensures { IfOk result (λ binding. binding ≡ elements.binding_of plan.now.decimals plan.now.prefixes.now (map shown plan.now.rows.now) tag (map attributes.shown known.now)) }
{
    match tag {
        Tag::Bind => Ok(Binding::Absent),
        Tag::Submission => Ok(Binding::Absent),
        _ => binding_by(plan, tag, known),
    }
}

fn binding_by(plan: &Plan<'_, '_>, tag: Tag, known: &[Known<'_>]) -> Result<Binding, AllocError>
    requires { IsPlan plan.now }
    ensures { IfOk result (λ binding. binding ≡ elements.binding_at plan.now.decimals plan.now.prefixes.now (map shown plan.now.rows.now) tag (map attributes.shown known.now)) }
{
    match id_at(tag, known, at::BIND) {
        Some(id) => Ok(Binding::Bind(counts_named(plan, id).binds)),
        None => nodes_of(plan, tag, known),
    }
}

fn nodes_of(plan: &Plan<'_, '_>, tag: Tag, known: &[Known<'_>]) -> Result<Binding, AllocError>
    ensures { IfOk result (λ binding. binding ≡ elements.nodes_of plan.now.decimals plan.now.prefixes.now tag (map attributes.shown known.now)) }
{
    if is_expression(tag, at::REF) {
        return nodes_at(plan, known, at::REF);
    }
    if is_expression(tag, at::NODESET) {
        return nodes_at(plan, known, at::NODESET);
    }
    Ok(Binding::Absent)
}

fn nodes_at(plan: &Plan<'_, '_>, known: &[Known<'_>], code: u16) -> Result<Binding, AllocError>
    ensures { IfOk result (λ binding. binding ≡ elements.nodes_at plan.now.decimals plan.now.prefixes.now (map attributes.shown known.now) code) }
{
    match expr_at(plan, known, code)? {
        Some(expr) => Ok(Binding::Nodes(expr)),
        None => Ok(Binding::Absent),
    }
}
