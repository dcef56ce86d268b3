//! The names by which the elements of a form are printed.
ghost use Rattle.std.specs.Prelude.{◌≡◌, ◌++◌, IfOk, OnOk, option_map, slice_get, string_bytes};
ghost use Rattle.xf_def_machine.specs.StateText.{id_text};
ghost use Rattle.xf_def_ui.specs.Elements.{element_at, is_control};
ghost use Rattle.xf_def_ui.specs.Interface.{interface_of, sort_of};
ghost use Rattle.xf_report.specs.Named.{name_in, number_in, numbers_of};

use crate::text::{push_number, push_quoted};
use std::alloc::{AllocError, Global};
use xf_def_syntax::{Element, Form, Kind};
use xf_name::is_part;

/// Of each element the number that it has as a control or container: its place among these, from 1. Behind them all that of one more.
pub fn numbers_of(alloc: Global, form: &Form) -> Result<Vec<u64>, AllocError>
    ensures { IfOk result (λ numbers. numbers.items ≡ numbers_of form.now.elements) }
{
    let mut numbers = Vec::with_capacity(alloc, form.elements.as_slice().len())?;
    let mut number = 1;
    for element in form.elements.as_slice() {
        numbers.push(number)?;
        if is_control(element) {
            number += 1;
        }
    }
    numbers.push(number)?;
    Ok(numbers)
}

fn is_control(element: &Element) -> bool
    ensures { result ≡ is_control (sort_of element.now.kind) }
{
    match &element.kind {
        Kind::Control(_, _) => true,
        _ => false,
    }
}

/// The element with a number.
pub fn element_in(form: &Form, element: u32) -> Option<&Element>
    ensures { option_map (λ e. e.now) result ≡ slice_get form.now.elements element }
{
    form.elements.as_slice().get(element as usize)
}

/// The id of an element, empty where it has none.
fn id_of(form: &Form, element: u32) -> &str
    ensures { result.now ≡ (element_at (interface_of form.now) element).id }
{
    match element_in(form, element) {
        Some(found) => found.id.as_str(),
        None => "",
    }
}

fn number_of(form: &Form, numbers: &[u64], element: u32) -> u64
    requires { numbers.now ≡ numbers_of form.now.elements }
    ensures { result ≡ number_in (interface_of form.now) element }
{
    let at = (element as usize).min(form.elements.as_slice().len());
    numbers[at]
}

/// Appends the name of an element: its id, or its number among the controls and containers.
pub fn push_name(
    alloc: Global,
    text: &mut String,
    form: &Form,
    numbers: &[u64],
    element: u32,
) -> Result<(), AllocError>
    requires { numbers.now ≡ numbers_of form.now.elements }
    ensures { OnOk result (string_bytes text.new ≡ string_bytes text.old ++ name_in (interface_of form.now) element) }
{
    let id = id_of(form, element);
    if !id.is_empty() {
        return push_id(alloc, text, id);
    }
    text.push_str("#")?;
    push_number(text, number_of(form, numbers, element))
}

/// Appends an id, as a string where it could be read as more than one field.
fn push_id(alloc: Global, text: &mut String, id: &str) -> Result<(), AllocError>
    ensures { OnOk result (string_bytes text.new ≡ string_bytes text.old ++ id_text id.now) }
{
    if is_part(id) {
        return text.push_str(id);
    }
    push_quoted(alloc, text, id)
}
