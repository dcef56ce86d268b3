//! What stands in an element, part after part. Host elements are looked through.

ghost use Rattle.std.specs.Prelude.{◌≡◌};
ghost use Rattle.xf_def_ui.specs.Elements.{element_at};
ghost use Rattle.xf_def_ui.specs.Interface.{interface_of, sort_of};
ghost use Rattle.xf_form_elements.specs.Parts as parts;

use crate::element::element_in;
use xf_def_syntax::{Element, Form, Kind, Part};

/// What stands in an element: in one that is not there, nothing.
pub fn parts_at(form: &Form, element: u32) -> &[Part]
    ensures { result.now ≡ (element_at (interface_of form.now) element).parts }
{
    match element_in(form, element) {
        Some(here) => here.parts.as_slice(),
        None => &[],
    }
}

/// What stands in a part that is a host element: in any other, nothing.
pub fn host_parts<'a>(form: &'a Form, part: &Part) -> &'a [Part]
    ensures { result.now ≡ parts.host_parts (interface_of form.now) part.now }
{
    match part {
        Part::Text(_) => &[],
        Part::Element(number) => {
            if is_host_at(form, *number) {
                parts_at(form, *number)
            } else {
                &[]
            }
        }
    }
}

/// The text that a part is: an element is none.
pub fn own_text(part: &Part) -> &str
    ensures { result.now ≡ parts.own_text part.now }
{
    match part {
        Part::Text(text) => text.as_str(),
        Part::Element(_) => "",
    }
}

fn is_host_at(form: &Form, element: u32) -> bool
    ensures { result ≡ parts.is_host (element_at (interface_of form.now) element).sort }
{
    match element_in(form, element) {
        Some(here) => is_host(here),
        None => true,
    }
}

fn is_host(element: &Element) -> bool
    ensures { result ≡ parts.is_host (sort_of element.now.kind) }
{
    match &element.kind {
        Kind::Host => true,
        _ => false,
    }
}
