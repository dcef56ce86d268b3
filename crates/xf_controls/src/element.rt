//! The elements of a form.

ghost use Rattle.std.specs.Prelude.{◌≡◌, map, option_map};
ghost use Rattle.std.specs.List.{flat_map, list_all};
ghost use Rattle.xf_def_syntax.specs.Ordered.{child_in, is_parent, numbered_from};
ghost use Rattle.xf_def_xpath.specs.Meaning.{meaning};
ghost use Rattle.xf_def_ui.specs.Elements.{element_at, is_container, is_control};
ghost use Rattle.xf_def_ui.specs.Interface.{element_of, interface_of, sort_of};
ghost use Rattle.xf_controls.specs.Below as below;
ghost use Rattle.xf_controls.specs.Handed.{printed_in};
ghost use Rattle.xf_controls.specs.Plain.{are_children, is_plain, is_plain_sort, is_top, stands_plainly};

use xf_def_syntax::{Control, Element, Expr, Form, Kind, Part};
use xf_form_elements::element_in;

/// Whether each control and container of the form has one copy: no element of it is a repeat, a switch, a case or a select. It also sees
/// that each element stands where its parent says.
pub fn is_plain(form: &Form) -> bool
    ensures { result ≡ is_plain (interface_of form.now) }
{
    if !is_first_alone(form) {
        return false;
    }
    if !form.repeats.is_empty() {
        return false;
    }
    all_plain(form, form.elements.as_slice())
}

/// Whether the first element has no parent.
pub fn is_first_alone(form: &Form) -> bool
    ensures { result ≡ is_top (element_at (interface_of form.now) 0).parent }
{
    match element_in(form, 0) {
        Some(first) => match first.parent {
            Some(_) => false,
            None => true,
        },
        None => true,
    }
}

fn all_plain(form: &Form, elements: &[Element]) -> bool
    ensures { result ≡ list_all (stands_plainly (interface_of form.now)) (numbered_from 0 (map (element_of form.now.tables) elements.now)) }
{
    for (at, element) in elements.iter().enumerate() {
        if !stands_plainly(form, at, element) {
            return false;
        }
    }
    true
}

fn stands_plainly(form: &Form, at: usize, element: &Element) -> bool
    ensures { result ≡ stands_plainly (interface_of form.now) (at, element_of form.now.tables element.now) }
{
    if !is_plain_kind(&element.kind) {
        return false;
    }
    are_children(form, at, element.parts.as_slice())
}

/// Whether each element among parts has this one as parent.
pub fn are_children(form: &Form, at: usize, parts: &[Part]) -> bool
    ensures { result ≡ are_children (interface_of form.now) at (flat_map child_in parts.now) }
{
    for part in parts {
        if !is_child(form, at, part) {
            return false;
        }
    }
    true
}

/// Whether what stands in an element, where it is an element itself, has it as parent.
fn is_child(form: &Form, at: usize, part: &Part) -> bool
    ensures { result ≡ are_children (interface_of form.now) at (child_in part.now) }
{
    match part {
        Part::Text(_) => true,
        Part::Element(child) => has_parent(form, *child, at),
    }
}

fn has_parent(form: &Form, child: u32, at: usize) -> bool
    ensures { result ≡ is_parent at (element_at (interface_of form.now) child).parent }
{
    match element_in(form, child) {
        Some(found) => match found.parent {
            Some(parent) => parent as usize == at,
            None => false,
        },
        None => false,
    }
}

fn is_plain_kind(kind: &Kind) -> bool
    ensures { result ≡ is_plain_sort (sort_of kind.now) }
{
    match kind {
        Kind::Control(_, control) => match control {
            Control::Switch(_)
            | Control::Case(_)
            | Control::Repeat(_, _)
            | Control::Select(_)
            | Control::SelectOne(_) => false,
            _ => true,
        },
        _ => true,
    }
}

pub(crate) fn is_control(kind: &Kind) -> bool
    ensures { result ≡ is_control (sort_of kind.now) }
{
    match kind {
        Kind::Control(_, _) => true,
        _ => false,
    }
}

pub(crate) fn is_container(kind: &Kind) -> bool
    ensures { result ≡ is_container (sort_of kind.now) }
{
    match kind {
        Kind::Control(_, control) => match control {
            Control::Group | Control::Switch(_) | Control::Case(_) | Control::Repeat(_, _) => true,
            _ => false,
        },
        _ => false,
    }
}

/// The expression `value` of an output.
pub(crate) fn printed_in(kind: &Kind) -> Option<&Expr>
    ensures { option_map (λ e. meaning e.now) result ≡ printed_in (sort_of kind.now) }
{
    match kind {
        Kind::Control(_, Control::Output(Some(expr))) => Some(expr),
        _ => None,
    }
}

/// Whether an element is a control or container, or one in it is, of which at most so many are nested.
#[cycle(shown)]
fn shows(form: &Form, most: usize, element: u32) -> bool
    ensures { result ≡ below.shows most (interface_of form.now) element }
{
    if most == 0 {
        return false;
    }
    let Some(here) = element_in(form, element) else {
        return false;
    };
    if is_control(&here.kind) {
        return true;
    }
    some_shown(form, most - 1, here.parts.as_slice())
}

/// Whether one of these parts shows a control or container.
#[cycle(shown)]
pub(crate) fn some_shown(form: &Form, most: usize, parts: &[Part]) -> bool
    ensures { result ≡ below.some_shown (below.shows most (interface_of form.now)) parts.now }
{
    for part in parts {
        if is_shown(form, most, part) {
            return true;
        }
    }
    false
}

#[cycle(shown)]
fn is_shown(form: &Form, most: usize, part: &Part) -> bool
    ensures { result ≡ below.is_shown (below.shows most (interface_of form.now)) part.now }
{
    match part {
        Part::Text(_) => false,
        Part::Element(child) => shows(form, most, *child),
    }
}
