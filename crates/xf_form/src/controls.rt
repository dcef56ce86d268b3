//! The controls and containers of a form.

ghost use Rattle.std.specs.Prelude.{◌≡◌, IfOk, map, option_map};
ghost use Rattle.xf_form_refusals.specs.Rows.{shown};
ghost use Rattle.xf_form_vocabulary.specs.Attributes as attributes;
ghost use Rattle.xf_form.specs.Elements as elements;
ghost use Rattle.xf_form.specs.Plan.{IsPlan};

use crate::actions::submission_or;
use crate::plan::{Plan, counts_before};
use crate::written::is_text;
use std::alloc::AllocError;
use xf_def_syntax::Control;
use xf_form_refusals::small;
use xf_form_vocabulary::{Known, Tag, attribute as at, is_count, text_of};

/// What the control or container at a place is.
pub fn control_of(
    plan: &Plan<'_, '_>,
    place: u32,
    tag: Tag,
    first: Option<u32>,
    known: &[Known<'_>],
) -> Control
    requires { IsPlan plan.now }
    ensures { result ≡ elements.control_of (map shown plan.now.rows.now) place tag first (map attributes.shown known.now) }
{
    match tag {
        Tag::Switch => Control::Switch(counts_before(plan, place).switches),
        Tag::Case => Control::Case(is_text(known, at::SELECTED, "true")),
        Tag::Repeat => Control::Repeat(
            counts_before(plan, place).repeats,
            start_in(text_of(known, at::START_INDEX)),
        ),
        Tag::Input => Control::Input,
        Tag::Secret => Control::Secret,
        Tag::Textarea => Control::Textarea,
        Tag::Select => Control::Select(is_text(known, at::SELECTION, "open")),
        Tag::SelectOne => Control::SelectOne(is_text(known, at::SELECTION, "open")),
        Tag::Trigger => Control::Trigger,
        Tag::Submit => Control::Submit(submission_or(plan, first, known)),
        _ => Control::Group,
    }
}

/// The place of the control or container at a place of the form among these, from 1.
pub fn control_place(plan: &Plan<'_, '_>, place: u32) -> Result<u32, AllocError>
    requires { IsPlan plan.now }
    ensures { IfOk result (λ one. one ≡ elements.control_place (map shown plan.now.rows.now) place) }
{
    small(counts_before(plan, place).controls as usize + 1)
}

// The index that a repeat starts at.
fn start_in(text: Option<&str>) -> u32
    ensures { result ≡ elements.start_in (option_map (λ t. t.now) text.entry) }
{
    match text {
        Some(text) => start_of(text),
        None => 1,
    }
}

fn start_of(text: &str) -> u32
    ensures { result ≡ elements.start_of text.now }
{
    if !is_count(text) {
        return 1;
    }
    match text.parse::<u32>() {
        Ok(index) => index,
        Err(_) => 1,
    }
}
