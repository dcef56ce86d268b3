//! The model in scope at an element (XForms 1.1, section 3.2.3).

ghost use Rattle.std.specs.Prelude.{◌≡◌, map, option_map, reverse, unwrap_or};
ghost use Rattle.xf_def_ui.specs.Context.{named_model, scope_of};
ghost use Rattle.xf_def_ui.specs.Elements.{above, element_at};
ghost use Rattle.xf_def_ui.specs.Interface.{interface_of};
ghost use Rattle.xf_form_elements.specs.Bound.{seen_bound};
ghost use Rattle.xf_form_elements.specs.Scope as scope;

use crate::bindings::{Bound, binding_of};
use crate::element::{element_in, parent_of};
use xf_def_syntax::Form;

/// The model in scope at an element: that of its bind, else that of `model`, else that of the element around, else the first.
pub fn model_at(form: &Form, element: u32) -> u32
    ensures { result ≡ scope.model_at (interface_of form.now) element }
{
    let outer = model_above(form, form.elements.len(), parent_of(form, element));
    model_in(form, outer, element)
}

// The model in scope that an element gives, where there is one, and at most so many are around.
fn model_above(form: &Form, most: usize, parent: Option<u32>) -> u32
    ensures { result ≡ scope.model_along (interface_of form.now) (reverse (above most (interface_of form.now) parent)) 0 }
{
    if most == 0 {
        return 0;
    }
    let Some(element) = parent else {
        return 0;
    };
    let outer = model_above(form, most - 1, parent_of(form, element));
    model_in(form, outer, element)
}

// By that of the element around.
fn model_in(form: &Form, outer: u32, element: u32) -> u32
    ensures { result ≡ scope_of (interface_of form.now) outer (element_at (interface_of form.now) element) }
{
    match element_in(form, element) {
        Some(here) => scope_of(form, outer, binding_of(&form.tables, here), here.model),
        None => outer,
    }
}

/// The model in scope at an element that binds this and names this model, inside one: that of its bind, else that of `model`, else that of
/// the element around.
pub fn scope_of(form: &Form, outer: u32, binding: Bound<'_>, model: Option<u32>) -> u32
    ensures { result ≡ unwrap_or (named_model (interface_of form.now) (seen_bound binding.entry) model) outer }
{
    match binding {
        Bound::ByBind(bind) => match form.tables.binds.as_slice().get(bind as usize) {
            Some(bind) => bind.model,
            None => outer,
        },
        _ => match model {
            Some(model) => model,
            None => outer,
        },
    }
}
