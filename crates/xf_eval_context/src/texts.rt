//! The texts of labels, messages and values (XForms 1.1, sections 8.2.1, 8.3.3 and 10.16): that of the bound node, else of the expression, else
//! the texts and outputs in them joined.

ghost use Rattle.std.specs.Prelude.{◌≡◌, option_map};
ghost use Rattle.xf_def_values.specs.Bounded.{GivesBounded};
ghost use Rattle.xf_def_xpath.specs.Meaning.{meaning};
ghost use Rattle.xf_def_ui.specs.Elements.{element_at};
ghost use Rattle.xf_def_ui.specs.Interface.{inline, interface_of};
ghost use Rattle.xf_def_ui.specs.Labels as labels;
ghost use Rattle.xf_form_elements.specs.Bound.{seen_bound};
ghost use Rattle.xf_eval_context.specs.Inside.{seen_context, seen_inside};
ghost use Rattle.xf_eval_context.specs.Over.{around_over};
ghost use Rattle.xf_eval_context.specs.Texts as texts;

use crate::bound::{binding_at, bound_text};
use crate::inside::{Inside, Situation, context_in, enter};
use crate::over::{Over, text};
use xf_def_syntax::{Expr, Kind, Part};
use xf_eval::EvalFault;
use xf_form_elements::{Bound, element_in, host_parts, own_text, parts_at};
use xf_name::Word;

/// The text of an element, in what surrounds it.
pub fn text_in(over: &Over<'_>, within: &Inside<'_>, element: u32) -> Result<Word, EvalFault>
    ensures { GivesBounded EvalFault.Memory EvalFault.Long (λ w. w) result (labels.text_in (interface_of over.now.form.now) (around_over over.now) (seen_inside within.now) (element_at (interface_of over.now.form.now) element)) }
{
    let binding = binding_at(over.form, element);
    match binding {
        Bound::Unbound => match value_of(over, element) {
            Some(value) => {
                let situation = context_in(over, within, element)?;
                value_text(over, &situation, Some(value))
            }
            None => joined_text(over, within, element),
        },
        _ => {
            let situation = context_in(over, within, element)?;
            text_bound(over, &situation, binding)
        }
    }
}

/// The expression `value` of an element that is a value of an item.
fn value_of<'a>(over: &Over<'a>, element: u32) -> Option<&'a Expr>
    ensures { option_map (λ e. meaning e.now) result ≡ texts.value_in (element_at (interface_of over.now.form.now) element).sort }
{
    match element_in(over.form, element) {
        Some(here) => match &here.kind {
            Kind::Value(Some(expr)) => Some(expr),
            _ => None,
        },
        None => None,
    }
}

/// The texts and outputs in an element, joined.
fn joined_text(over: &Over<'_>, within: &Inside<'_>, element: u32) -> Result<Word, EvalFault>
    ensures { GivesBounded EvalFault.Memory EvalFault.Long (λ w. w) result (labels.joined_text (interface_of over.now.form.now) (around_over over.now) (seen_inside within.now) (element_at (interface_of over.now.form.now) element)) }
{
    let form = over.form;
    let inner = enter(over, within, element)?;
    let mut all = Word::new(over.alloc);
    push_pieces(
        over,
        &inner,
        form.elements.len(),
        parts_at(form, element),
        &mut all,
    )?;
    Ok(all)
}

/// Puts the texts and outputs in parts behind others, through so many host elements one inside the other.
fn push_pieces(
    over: &Over<'_>,
    within: &Inside<'_>,
    most: usize,
    parts: &[Part],
    all: &mut Word,
) -> Result<(), EvalFault>
    ensures { texts.Joins result all.old all.new (texts.joined (interface_of over.now.form.now) (around_over over.now) (seen_inside within.now) most parts.now) }
{
    if most == 0 {
        return Ok(());
    }
    for part in parts {
        all.push_str(own_text(part))?;
        push_printed(over, within, part, all)?;
        push_pieces(over, within, most - 1, host_parts(over.form, part), all)?;
    }
    Ok(())
}

/// The text of an output that is part of the text.
fn push_printed(
    over: &Over<'_>,
    within: &Inside<'_>,
    part: &Part,
    all: &mut Word,
) -> Result<(), EvalFault>
    ensures { texts.Joins result all.old all.new (texts.own_printed (interface_of over.now.form.now) (around_over over.now) (seen_inside within.now) part.now) }
{
    match part {
        Part::Text(_) => Ok(()),
        Part::Element(number) => {
            let text = printed_text(over, within, *number)?;
            all.push_str(text.as_str())?;
            Ok(())
        }
    }
}

/// The text of an element that is an output, else none.
fn printed_text(over: &Over<'_>, within: &Inside<'_>, element: u32) -> Result<Word, EvalFault>
    ensures { GivesBounded EvalFault.Memory EvalFault.Long (λ w. w) result (texts.printed_in (interface_of over.now.form.now) (around_over over.now) (seen_inside within.now) element (element_at (interface_of over.now.form.now) element).sort) }
{
    match element_in(over.form, element) {
        Some(here) => match &here.kind {
            Kind::Output(value) => output_text(over, within, element, value),
            _ => Ok(Word::new(over.alloc)),
        },
        None => Ok(Word::new(over.alloc)),
    }
}

fn output_text(
    over: &Over<'_>,
    within: &Inside<'_>,
    element: u32,
    value: &Option<Expr>,
) -> Result<Word, EvalFault>
    ensures { GivesBounded EvalFault.Memory EvalFault.Long (λ w. w) result (texts.printed_in (interface_of over.now.form.now) (around_over over.now) (seen_inside within.now) element (inline (option_map meaning value.now))) }
{
    let situation = context_in(over, within, element)?;
    let binding = binding_at(over.form, element);
    match binding {
        Bound::Unbound => match value {
            Some(expr) => value_text(over, &situation, Some(expr)),
            None => Ok(Word::new(over.alloc)),
        },
        _ => text_bound(over, &situation, binding),
    }
}

/// The value of an expression as a text, empty where there is none, or no context node.
fn value_text(
    over: &Over<'_>,
    situation: &Situation,
    value: Option<&Expr>,
) -> Result<Word, EvalFault>
    ensures { GivesBounded EvalFault.Memory EvalFault.Long (λ w. w) result (labels.value_text (around_over over.now) (seen_context situation.now) (option_map (λ e. meaning e.now) value.entry)) }
{
    let Some(expr) = value else {
        return Ok(Word::new(over.alloc));
    };
    match &situation.focus {
        Some(focus) => text(over, situation.model, focus, expr),
        None => Ok(Word::new(over.alloc)),
    }
}

/// The text of the node that a binding selects, empty where it selects none or there is no context node.
fn text_bound(over: &Over<'_>, situation: &Situation, binding: Bound<'_>) -> Result<Word, EvalFault>
    ensures { GivesBounded EvalFault.Memory EvalFault.Long (λ w. w) result (labels.bound_text (around_over over.now) (seen_context situation.now) (seen_bound binding.entry)) }
{
    match &situation.focus {
        Some(focus) => bound_text(over, situation.model, binding, focus),
        None => Ok(Word::new(over.alloc)),
    }
}
