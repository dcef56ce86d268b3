//! What stands in an element: the words, and the actions. Host elements are looked through.

ghost use Rattle.std.specs.Prelude.{◌≡◌, ◌++◌, IfOk, OnOk};
ghost use Rattle.xf_def_xpath.specs.Binding.{as_list};
ghost use Rattle.xf_def_ui.specs.Elements.{actions_in, element_at, is_action};
ghost use Rattle.xf_def_ui.specs.Interface.{interface_of, sort_of};
ghost use Rattle.xf_def_ui.specs.Labels.{words_of};
ghost use Rattle.xf_events.specs.Inner as inner;

use std::alloc::{AllocError, Global};
use xf_base::Items;
use xf_def_syntax::{Element, ElementList, Form, Kind, Part};
use xf_form_elements::{element_in, host_parts, own_text, parts_at};
use xf_name::Word;

/// The text that stands in an element.
pub fn words_at(alloc: Global, form: &Form, element: u32) -> Result<Word, AllocError>
    ensures { IfOk result (λ all. all ≡ words_of (interface_of form.now) (element_at (interface_of form.now) element)) }
{
    let mut all = Word::new(alloc);
    push_words(form, form.elements.len(), parts_at(form, element), &mut all)?;
    Ok(all)
}

/// The actions in an action.
pub fn actions_at(alloc: Global, form: &Form, element: u32) -> Result<ElementList, AllocError>
    ensures { IfOk result (λ all. all ≡ actions_in (interface_of form.now) element) }
{
    let mut all = Items::new(alloc);
    push_actions(form, form.elements.len(), parts_at(form, element), &mut all)?;
    Ok(all)
}

fn push_words(form: &Form, most: usize, parts: &[Part], all: &mut Word) -> Result<(), AllocError>
    ensures { OnOk result (all.new ≡ all.old ++ inner.words_through most (interface_of form.now) parts.now) }
{
    if most == 0 {
        return Ok(());
    }
    for part in parts {
        all.push_str(own_text(part))?;
        push_words(form, most - 1, host_parts(form, part), all)?;
    }
    Ok(())
}

fn push_actions(
    form: &Form,
    most: usize,
    parts: &[Part],
    all: &mut ElementList,
) -> Result<(), AllocError>
    ensures { OnOk result (all.new ≡ all.old ++ inner.actions_through most (interface_of form.now) parts.now) }
{
    if most == 0 {
        return Ok(());
    }
    for part in parts {
        push_some(all, own_action(form, part))?;
        push_actions(form, most - 1, host_parts(form, part), all)?;
    }
    Ok(())
}

fn push_some(all: &mut ElementList, number: Option<u32>) -> Result<(), AllocError>
    ensures { OnOk result (all.new ≡ all.old ++ as_list number) }
{
    match number {
        Some(number) => {
            all.push(number)?;
            Ok(())
        }
        None => Ok(()),
    }
}

fn own_action(form: &Form, part: &Part) -> Option<u32>
    ensures { result ≡ inner.own_action (interface_of form.now) part.now }
{
    match part {
        Part::Text(_) => None,
        Part::Element(number) => {
            if is_action_at(form, *number) {
                Some(*number)
            } else {
                None
            }
        }
    }
}

fn is_action_at(form: &Form, element: u32) -> bool
    ensures { result ≡ is_action (element_at (interface_of form.now) element).sort }
{
    match element_in(form, element) {
        Some(here) => is_action(here),
        None => false,
    }
}

fn is_action(element: &Element) -> bool
    ensures { result ≡ is_action (sort_of element.now.kind) }
{
    match &element.kind {
        Kind::Action(_) => true,
        _ => false,
    }
}
