//! The actions of a form.

ghost use Rattle.std.specs.Prelude.{◌≡◌, IfOk, map, option_map};
ghost use Rattle.xf_form_refusals.specs.Rows.{shown};
ghost use Rattle.xf_form_vocabulary.specs.Attributes as attributes;
ghost use Rattle.xf_form.specs.Actions as actions;
ghost use Rattle.xf_form.specs.Numbers as numbers;
ghost use Rattle.xf_form.specs.Plan.{IsPlan};

use crate::plan::{Plan, element_at, number_of, repeat_at, submission_at};
use crate::written::{expr_at, expr_of, is_text, is_true, word_at};
use std::alloc::AllocError;
use xf_def_syntax::{Action, DeleteWork, DispatchWork, Handler, InsertWork, Phase, Work};
use xf_form_refusals::{Row, is_handler};
use xf_form_vocabulary::{Known, Tag, attribute as at, text_of};

/// An action.
pub fn action_of(
    plan: &Plan<'_, '_>,
    row: &Row<'_>,
    first: Option<u32>,
    known: &[Known<'_>],
) -> Result<Action, AllocError>
    requires { IsPlan plan.now }
    ensures { IfOk result (λ action. action ≡ actions.action_of plan.now.decimals plan.now.prefixes.now (map shown plan.now.rows.now) (shown row.now) first (map attributes.shown known.now)) }
{
    Ok(Action {
        handler: handler_of(plan, row, known)?,
        condition: expr_at(plan, known, at::IF)?,
        repetition: expr_at(plan, known, at::WHILE)?,
        work: work_of(plan, row.tag, first, known)?,
    })
}

// ---- handlers

fn handler_of(
    plan: &Plan<'_, '_>,
    row: &Row<'_>,
    known: &[Known<'_>],
) -> Result<Option<Handler>, AllocError>
    requires { IsPlan plan.now }
    ensures { IfOk result (λ handler. handler ≡ actions.handler_of (map shown plan.now.rows.now) (shown row.now) (map attributes.shown known.now)) }
{
    if !is_handler(row) {
        return Ok(None);
    }
    let observer = element_at(plan, known, at::OBSERVER);
    Ok(Some(Handler {
        event: word_at(plan.alloc, known, at::EVENT)?,
        observer: or_else(observer, number_of_parent(plan, row.standing.parent)),
        target: element_at(plan, known, at::EVENT_TARGET),
        phase: phase_of(known),
        stops: is_text(known, at::PROPAGATE, "stop"),
        cancels: is_text(known, at::DEFAULT_ACTION, "cancel"),
    }))
}

/// What is named, else another.
pub fn or_else(named: Option<u32>, other: Option<u32>) -> Option<u32>
    ensures { result ≡ actions.or_else named other }
{
    match named {
        Some(named) => Some(named),
        None => other,
    }
}

/// The number of the element in which one stands.
pub fn number_of_parent(plan: &Plan<'_, '_>, parent: Option<u32>) -> Option<u32>
    requires { IsPlan plan.now }
    ensures { result ≡ option_map (numbers.number_of (map shown plan.now.rows.now)) parent }
{
    match parent {
        Some(parent) => Some(number_of(plan, parent)),
        None => None,
    }
}

fn phase_of(known: &[Known<'_>]) -> Phase
    ensures { result ≡ actions.phase_of (map attributes.shown known.now) }
{
    if is_text(known, at::PHASE, "capture") {
        return Phase::Capture;
    }
    Phase::Default
}

// ---- what they do

fn work_of(
    plan: &Plan<'_, '_>,
    tag: Tag,
    first: Option<u32>,
    known: &[Known<'_>],
) -> Result<Work, AllocError>
    requires { IsPlan plan.now }
    ensures { IfOk result (λ work. work ≡ actions.work_of plan.now.decimals plan.now.prefixes.now (map shown plan.now.rows.now) tag first (map attributes.shown known.now)) }
{
    match tag {
        Tag::SetValue => Ok(Work::SetValue(expr_at(plan, known, at::VALUE)?)),
        Tag::Insert => Ok(Work::Insert(insert_of(plan, known)?)),
        Tag::Delete => Ok(Work::Delete(delete_of(plan, known)?)),
        Tag::SetIndex => set_index_of(plan, known),
        Tag::Dispatch => Ok(Work::Dispatch(dispatch_of(plan, known)?)),
        Tag::Load => Ok(Work::Load(word_at(plan.alloc, known, at::RESOURCE)?)),
        Tag::Toggle => Ok(Work::Toggle(element_at(plan, known, at::CASE).unwrap_or(0))),
        Tag::SetFocus => Ok(Work::SetFocus(element_at(plan, known, at::CONTROL).unwrap_or(0))),
        Tag::Send => Ok(Work::Send(submission_or(plan, first, known))),
        Tag::Message => Ok(Work::Message),
        Tag::Reset => Ok(Work::Reset),
        Tag::Rebuild => Ok(Work::Rebuild),
        Tag::Recalculate => Ok(Work::Recalculate),
        Tag::Revalidate => Ok(Work::Revalidate),
        Tag::Refresh => Ok(Work::Refresh),
        _ => Ok(Work::Action),
    }
}

fn insert_of(plan: &Plan<'_, '_>, known: &[Known<'_>]) -> Result<InsertWork, AllocError>
    ensures { IfOk result (λ work. work ≡ actions.insert_of plan.now.decimals plan.now.prefixes.now (map attributes.shown known.now)) }
{
    Ok(InsertWork {
        context: expr_at(plan, known, at::CONTEXT)?,
        origin: expr_at(plan, known, at::ORIGIN)?,
        at: expr_at(plan, known, at::AT)?,
        is_before: is_text(known, at::POSITION, "before"),
    })
}

fn delete_of(plan: &Plan<'_, '_>, known: &[Known<'_>]) -> Result<DeleteWork, AllocError>
    ensures { IfOk result (λ work. work ≡ actions.delete_of plan.now.decimals plan.now.prefixes.now (map attributes.shown known.now)) }
{
    Ok(DeleteWork {
        context: expr_at(plan, known, at::CONTEXT)?,
        at: expr_at(plan, known, at::AT)?,
    })
}

fn set_index_of(plan: &Plan<'_, '_>, known: &[Known<'_>]) -> Result<Work, AllocError>
    requires { IsPlan plan.now }
    ensures { IfOk result (λ work. work ≡ actions.set_index_of plan.now.decimals plan.now.prefixes.now (map shown plan.now.rows.now) (map attributes.shown known.now)) }
{
    let repeat = repeat_at(plan, known, at::REPEAT).unwrap_or(0);
    let index = text_of(known, at::INDEX).unwrap_or("");
    Ok(Work::SetIndex(repeat, expr_of(plan, index)?))
}

fn dispatch_of(plan: &Plan<'_, '_>, known: &[Known<'_>]) -> Result<DispatchWork, AllocError>
    requires { IsPlan plan.now }
    ensures { IfOk result (λ work. work ≡ actions.dispatch_of (map shown plan.now.rows.now) (map attributes.shown known.now)) }
{
    let target = or_else(
        element_at(plan, known, at::TARGET_ID),
        element_at(plan, known, at::TARGET),
    );
    Ok(DispatchWork {
        name: word_at(plan.alloc, known, at::NAME)?,
        target: target.unwrap_or(0),
        bubbles: is_true(known, at::BUBBLES),
        is_cancelable: is_true(known, at::CANCELABLE),
    })
}

/// The submission that is named, else the first of the model in scope.
pub fn submission_or(plan: &Plan<'_, '_>, first: Option<u32>, known: &[Known<'_>]) -> Option<u32>
    requires { IsPlan plan.now }
    ensures { result ≡ actions.submission_at (map shown plan.now.rows.now) first (map attributes.shown known.now) }
{
    or_else(submission_at(plan, known, at::SUBMISSION), first)
}
