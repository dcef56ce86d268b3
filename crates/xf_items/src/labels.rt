//! An item by the texts of its label and its value (XForms 1.1, sections 8.3.2 and 8.3.3).

ghost use Rattle.std.specs.Prelude.{◌≡◌, find, option_map};
ghost use Rattle.std.specs.List.{flat_map};
ghost use Rattle.xf_def_values.specs.Bounded.{GivesBounded};
ghost use Rattle.xf_def_syntax.specs.Ordered.{child_in};
ghost use Rattle.xf_def_ui.specs.Elements.{element_at};
ghost use Rattle.xf_def_ui.specs.Interface.{interface_of, sort_of};
ghost use Rattle.xf_def_ui.specs.Items as ui;
ghost use Rattle.xf_eval_context.specs.Inside.{seen_inside};
ghost use Rattle.xf_eval_context.specs.Over.{around_over};
ghost use Rattle.xf_items.specs.Items as items;

use xf_def_syntax::{Form, Kind, Part};
use xf_def_ui::{Item, ItemList};
use xf_eval::EvalFault;
use xf_eval_context::{Inside, Over, text_in};
use xf_form_elements::{element_in, parts_at};
use xf_name::Word;

/// What is looked for in an item.
#[derive(Clone, Copy, Debug, PartialEq, Eq)]
pub(crate) enum Sought {
    Label,
    Value,
}

/// Puts the item of an element behind others.
pub(crate) fn push_item(
    over: &Over<'_>,
    within: &Inside<'_>,
    element: u32,
    all: &mut ItemList,
) -> Result<(), EvalFault>
    ensures { items.Adds result all.old all.new (items.alone (ui.item_in (interface_of over.now.form.now) (around_over over.now) element (seen_inside within.now))) }
{
    let label = text_among(over, within, Sought::Label, element)?;
    let value = text_among(over, within, Sought::Value, element)?;
    all.push(Item { label, value })?;
    Ok(())
}

/// The text of the first label, or of the first value, in an element: empty without one.
fn text_among(
    over: &Over<'_>,
    within: &Inside<'_>,
    sought: Sought,
    element: u32,
) -> Result<Word, EvalFault>
    ensures { GivesBounded EvalFault.Memory EvalFault.Long (λ w. w) result (ui.text_among (interface_of over.now.form.now) (around_over over.now) (seen_inside within.now) (items.is_sought sought) element) }
{
    match first_sought(over.form, sought, parts_at(over.form, element)) {
        Some(first) => text_in(over, within, first),
        None => Ok(Word::new(over.alloc)),
    }
}

/// The first label, or the first value, among parts.
fn first_sought(form: &Form, sought: Sought, parts: &[Part]) -> Option<u32>
    ensures { result ≡ find (λ m. items.is_sought sought (element_at (interface_of form.now) m).sort) (flat_map child_in parts.now) }
{
    for part in parts {
        let found = sought_in(form, sought, part);
        if found.is_some() {
            return found;
        }
    }
    None
}

/// The element that a part is, where it is a label or a value.
fn sought_in(form: &Form, sought: Sought, part: &Part) -> Option<u32>
    ensures { result ≡ find (λ m. items.is_sought sought (element_at (interface_of form.now) m).sort) (child_in part.now) }
{
    match part {
        Part::Text(_) => None,
        Part::Element(number) => {
            if is_sought_at(form, sought, *number) {
                Some(*number)
            } else {
                None
            }
        }
    }
}

fn is_sought_at(form: &Form, sought: Sought, element: u32) -> bool
    ensures { result ≡ items.is_sought sought (element_at (interface_of form.now) element).sort }
{
    match element_in(form, element) {
        Some(here) => is_sought(sought, &here.kind),
        None => false,
    }
}

fn is_sought(sought: Sought, kind: &Kind) -> bool
    ensures { result ≡ items.is_sought sought (sort_of kind.now) }
{
    match sought {
        Sought::Label => is_label(kind),
        Sought::Value => is_value(kind),
    }
}

fn is_label(kind: &Kind) -> bool
    ensures { result ≡ ui.is_label (sort_of kind.now) }
{
    match kind {
        Kind::Label => true,
        _ => false,
    }
}

fn is_value(kind: &Kind) -> bool
    ensures { result ≡ ui.is_value (sort_of kind.now) }
{
    match kind {
        Kind::Value(_) => true,
        _ => false,
    }
}
