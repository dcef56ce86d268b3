//! Whether it is known of a form what all of its controls and containers bind.

ghost use Rattle.std.specs.Prelude.{◌≡◌, true, slice_get};
ghost use Rattle.std.specs.Bool.{OnFalse, OnTrue};
ghost use Rattle.xf_def_ui.specs.Interface.{interface_of, sort_of};
ghost use Rattle.xf_def_ui.specs.Elements.{is_control};
ghost use Rattle.xf_controls.specs.Bound.{AllBound, IsShownBy};

use crate::element::{is_control, printed_in};
use crate::known::{Known, KnownList};
use xf_def_forest::NodeId;
use xf_def_syntax::{Element, Form};

/// Whether what is known tells of each control and container of the form what it binds, and each shows nothing but the value of its node.
pub fn are_bound(form: &Form, known: &KnownList) -> bool
    ensures bound { OnTrue result (AllBound (interface_of form.now) known.now) }
    ensures other { OnFalse result (AllBound (interface_of form.now) known.now → ⊥) }
{
    let known = known.as_slice();
    for (at, element) in form.elements.as_slice().iter().enumerate() {
        if !is_shown_by(element, known, at) {
            return false;
        }
    }
    true
}

/// Whether an element is no control or container, or it is known what it binds: it has an expression to show only beside a node.
fn is_shown_by(element: &Element, known: &[Known], at: usize) -> bool
    ensures shown { OnTrue result (is_control (sort_of element.now.kind) ≡ true → IsShownBy (sort_of element.now.kind) (slice_get known.now at)) }
    ensures other { OnFalse result ((is_control (sort_of element.now.kind) ≡ true → IsShownBy (sort_of element.now.kind) (slice_get known.now at)) → ⊥) }
{
    if !is_control(&element.kind) {
        return true;
    }
    match known.get(at) {
        Some(Known::Is(Some(_))) => true,
        Some(Known::Is(None)) => printed_in(&element.kind).is_none(),
        _ => false,
    }
}
