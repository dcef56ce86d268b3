//! Where the elements of a form stand (XForms 1.1, section 2).

ghost use Rattle.std.specs.Prelude.{◌≡◌, map};
ghost use Rattle.std.specs.List.{list_all};
ghost use Rattle.xf_def_syntax.specs.Ordered.{numbered_from};
ghost use Rattle.xf_def_ui.specs.Interface.{element_of, interface_of};
ghost use Rattle.xf_controls_copies.specs.Parents as parents;

use xf_controls::{are_children, is_first_alone};
use xf_def_syntax::{Element, Form};

/// Whether each element stands in the one that it has as parent, and the first one in none, as in every form that is loaded.
pub(crate) fn are_parents(form: &Form) -> bool
    ensures { result ≡ parents.are_parents (interface_of form.now) }
{
    if !is_first_alone(form) {
        return false;
    }
    have_children(form, form.elements.as_slice())
}

fn have_children(form: &Form, elements: &[Element]) -> bool
    ensures { result ≡ list_all (parents.has_children (interface_of form.now)) (numbered_from 0 (map (element_of form.now.tables) elements.now)) }
{
    for (at, element) in elements.iter().enumerate() {
        if !has_children(form, at, element) {
            return false;
        }
    }
    true
}

/// Whether what stands in an element has it as parent.
fn has_children(form: &Form, at: usize, element: &Element) -> bool
    ensures { result ≡ parents.has_children (interface_of form.now) (at, element_of form.now.tables element.now) }
{
    are_children(form, at, element.parts.as_slice())
}
