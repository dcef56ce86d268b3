//! The handlers of an observer (XML Events, section 3).

ghost use Rattle.std.specs.Prelude.{◌≡◌, IfOk, map};
ghost use Rattle.xf_def_syntax.specs.declared.form.Tables.{Tables};
ghost use Rattle.xf_def_ui.specs.Interface.{element_of, interface_of, sort_of};
ghost use Rattle.xf_form_elements.specs.Handlers as handlers;

use crate::element::number_at;
use std::alloc::{AllocError, Global};
use xf_base::Items;
use xf_def_syntax::{Element, ElementList, Form, Kind};

/// The handlers that an element observes, in document order.
pub fn handlers_at(alloc: Global, form: &Form, observer: u32) -> Result<ElementList, AllocError>
    ensures { IfOk result (λ all. all ≡ handlers.handlers_at (interface_of form.now) observer) }
{
    handlers_among(alloc, form.elements.as_slice(), observer)
}

// Among these elements.
fn handlers_among(
    alloc: Global,
    elements: &[Element],
    observer: u32,
) -> Result<ElementList, AllocError>
    ensures { IfOk result (λ all. (tables : Tables) → all ≡ handlers.handlers_from observer 0 (map (element_of tables) elements.now)) }
{
    let mut all = Items::new(alloc);
    for (place, element) in elements.iter().enumerate() {
        if is_heard(element, observer) {
            all.push(number_at(place)?)?;
        }
    }
    Ok(all)
}

// Whether an element is a handler that the observer has.
fn is_heard(element: &Element, observer: u32) -> bool
    ensures { result ≡ handlers.is_heard observer (sort_of element.now.kind) }
{
    match &element.kind {
        Kind::Action(action) => match &action.handler {
            Some(handler) => match handler.observer {
                Some(one) => one == observer,
                None => false,
            },
            None => false,
        },
        _ => false,
    }
}
