//! What stands in selected cases.

ghost use Rattle.std.specs.Prelude.{◌≡◌, Some, get_or};
ghost use Rattle.std.specs.List.{list_all};
ghost use Rattle.xf_def_ui.specs.Cases as ui;
ghost use Rattle.xf_def_ui.specs.Elements.{above, element_at};
ghost use Rattle.xf_def_ui.specs.Interface.{interface_of, sort_of};
ghost use Rattle.xf_form_elements.specs.Switch.Among.{own_switch};

use crate::switch::cases::{is_case_at, place_of_case};
use crate::{element_in, parent_of};
use xf_def_syntax::{Control, Form, Kind};

/// Whether an element is in no case that is not selected, by the places of the selected cases of all switches; a case is not inside itself.
pub fn is_in_selected(form: &Form, cases: &[usize], element: u32) -> bool
    ensures { result ≡ ui.is_in_selected (interface_of form.now) cases.now element }
{
    are_selected(form, cases, form.elements.len(), parent_of(form, element))
}

/// Of an element, where there is one, and those around it, of which there are at most so many, each case is selected.
fn are_selected(form: &Form, cases: &[usize], most: usize, parent: Option<u32>) -> bool
    ensures { result ≡ list_all (λ m. ui.if_case (interface_of form.now) cases.now m (element_at (interface_of form.now) m).sort) (above most (interface_of form.now) parent) }
{
    if most == 0 {
        return true;
    }
    let Some(element) = parent else {
        return true;
    };
    if !is_open(form, cases, element) {
        return false;
    }
    are_selected(form, cases, most - 1, parent_of(form, element))
}

/// Whether an element is no case, or the selected one.
pub fn is_open(form: &Form, cases: &[usize], element: u32) -> bool
    ensures { result ≡ ui.if_case (interface_of form.now) cases.now element (element_at (interface_of form.now) element).sort }
{
    if !is_case_at(form, element) {
        return true;
    }
    is_selected(form, cases, element)
}

/// Whether a case is the selected one of its switch.
fn is_selected(form: &Form, cases: &[usize], case: u32) -> bool
    ensures { result ≡ ui.is_selected (interface_of form.now) cases.now case }
{
    match parent_of(form, case) {
        Some(element) => is_selected_in(form, cases, element, case),
        None => false,
    }
}

fn is_selected_in(form: &Form, cases: &[usize], element: u32, case: u32) -> bool
    ensures { result ≡ ui.is_case_of (interface_of form.now) cases.now case (Some element) (element_at (interface_of form.now) element).sort }
{
    match switch_at(form, element) {
        Some(switch) => place_of_case(form, element, case) == selected_in(cases, switch),
        None => false,
    }
}

/// The place of the selected case of the switch of this number.
fn selected_in(cases: &[usize], switch: u32) -> usize
    ensures { result ≡ get_or cases.now switch 0 }
{
    match cases.get(switch as usize) {
        Some(place) => *place,
        None => 0,
    }
}

/// The number of the switch that an element is.
fn switch_at(form: &Form, element: u32) -> Option<u32>
    ensures { result ≡ own_switch (element_at (interface_of form.now) element).sort }
{
    match element_in(form, element) {
        Some(here) => own_switch(&here.kind),
        None => None,
    }
}

fn own_switch(kind: &Kind) -> Option<u32>
    ensures { result ≡ own_switch (sort_of kind.now) }
{
    match kind {
        Kind::Control(_, control) => match control {
            Control::Switch(number) => Some(*number),
            _ => None,
        },
        _ => None,
    }
}
