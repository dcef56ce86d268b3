//! Elements by their numbers.

ghost use Rattle.std.specs.Prelude.{◌≡◌, IfOk, option_map, slice_get};
ghost use Rattle.xf_def_ui.specs.Elements.{element_at};
ghost use Rattle.xf_def_ui.specs.Interface.{interface_of};

use std::alloc::AllocError;
use xf_def_syntax::{Element, Form};

/// The element of a number.
pub fn element_in(form: &Form, element: u32) -> Option<&Element>
    ensures { option_map (λ e. e.now) result ≡ slice_get form.now.elements element }
{
    form.elements.as_slice().get(element as usize)
}

/// The element in which one stands.
pub fn parent_of(form: &Form, element: u32) -> Option<u32>
    ensures { result ≡ (element_at (interface_of form.now) element).parent }
{
    match element_in(form, element) {
        Some(here) => here.parent,
        None => None,
    }
}

/// A place as a number: a form that is read has fewer elements.
pub(crate) fn number_at(place: usize) -> Result<u32, AllocError>
    ensures { IfOk result (λ number. number ≡ place) }
{
    match u32::try_from(place) {
        Ok(number) => Ok(number),
        Err(_) => Err(AllocError),
    }
}
