//! What the elements of a form are.

ghost use Rattle.std.specs.Prelude.{◌≡◌, IfOk, map};
ghost use Rattle.xf_form_refusals.specs.Rows.{shown};
ghost use Rattle.xf_form_vocabulary.specs.Attributes as attributes;
ghost use Rattle.xf_form.specs.Elements as elements;
ghost use Rattle.xf_form.specs.Plan.{IsPlan};

use crate::actions::action_of;
use crate::controls::{control_of, control_place};
use crate::plan::{Plan, counts_before};
use crate::written::expr_at;
use std::alloc::AllocError;
use xf_def_syntax::{Control, Expr, Kind};
use xf_form_refusals::{Row, is_inline};
use xf_form_vocabulary::{Known, Tag, attribute as at, is_counted};

/// What the element at a place is.
pub fn kind_of(
    plan: &Plan<'_, '_>,
    place: u32,
    row: &Row<'_>,
    first: Option<u32>,
    known: &[Known<'_>],
) -> Result<Kind, AllocError>
    requires { IsPlan plan.now }
    ensures { IfOk result (λ kind. kind ≡ elements.kind_by plan.now.decimals plan.now.prefixes.now (map shown plan.now.rows.now) place (shown row.now) first (map attributes.shown known.now) row.now.tag) }
{
    match row.tag {
        Tag::Host => Ok(Kind::Host),
        Tag::Unknown => Ok(Kind::Host),
        Tag::Model => Ok(Kind::Model(counts_before(plan, place).models)),
        Tag::Instance => Ok(Kind::Instance(counts_before(plan, place).instances)),
        Tag::Bind => Ok(Kind::Bind(counts_before(plan, place).binds)),
        Tag::Submission => Ok(Kind::Submission(counts_before(plan, place).submissions)),
        Tag::Item => Ok(Kind::Item),
        Tag::Itemset => Ok(Kind::Itemset),
        Tag::Choices => Ok(Kind::Choices),
        Tag::Label => Ok(Kind::Label),
        Tag::Value => Ok(Kind::Value(expr_at(plan, known, at::VALUE)?)),
        Tag::Output => {
            let value = expr_at(plan, known, at::VALUE)?;
            output_of(plan, place, row, value)
        }
        _ => kind_by_class(plan, place, row, first, known),
    }
}

fn output_of(
    plan: &Plan<'_, '_>,
    place: u32,
    row: &Row<'_>,
    value: Option<Expr>,
) -> Result<Kind, AllocError>
    requires { IsPlan plan.now }
    ensures { IfOk result (λ kind. kind ≡ elements.output_of (map shown plan.now.rows.now) place (shown row.now) value) }
{
    if is_inline(row) {
        return Ok(Kind::Output(value));
    }
    Ok(Kind::Control(control_place(plan, place)?, Control::Output(value)))
}

fn kind_by_class(
    plan: &Plan<'_, '_>,
    place: u32,
    row: &Row<'_>,
    first: Option<u32>,
    known: &[Known<'_>],
) -> Result<Kind, AllocError>
    requires { IsPlan plan.now }
    ensures { IfOk result (λ kind. kind ≡ elements.kind_by_class plan.now.decimals plan.now.prefixes.now (map shown plan.now.rows.now) place (shown row.now) first (map attributes.shown known.now)) }
{
    if is_counted(row.tag) {
        return Ok(Kind::Control(
            control_place(plan, place)?,
            control_of(plan, place, row.tag, first, known),
        ));
    }
    Ok(Kind::Action(action_of(plan, row, first, known)?))
}
