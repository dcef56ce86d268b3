//! The items of a select (XForms 1.1, sections 8.1.10, 8.1.11 and 8.3): those written and those of item sets, in document order.

ghost use Rattle.std.specs.Prelude.{◌≡◌, map};
ghost use Rattle.xf_def_values.specs.Bounded.{GivesBounded};
ghost use Rattle.xf_def_ui.specs.Elements.{element_at};
ghost use Rattle.xf_def_ui.specs.Interface.{element_of, interface_of, sort_of};
ghost use Rattle.xf_def_ui.specs.Items.{items_of};
ghost use Rattle.xf_eval_context.specs.Inside.{seen_inside};
ghost use Rattle.xf_eval_context.specs.Over.{around_over};
ghost use Rattle.xf_items.specs.Items as items;

use crate::labels::push_item;
use crate::sets::push_set;
use xf_base::Items;
use xf_def_forest::NodeId;
use xf_def_syntax::{Form, Kind, Part};
use xf_def_ui::ItemList;
use xf_eval::EvalFault;
use xf_eval_context::{Inside, Over, enter, inside_under};
use xf_form_elements::{element_in, parts_at};

/// The items of a select under a chain of row nodes of the repeats around it, the outermost first.
pub fn items_of(over: &Over<'_>, rows: &[NodeId], select: u32) -> Result<ItemList, EvalFault>
    ensures { GivesBounded EvalFault.Memory EvalFault.Long (λ l. l) result (items_of (interface_of over.now.form.now) (around_over over.now) (map (λ n. n.number) rows.now) select) }
{
    let within = inside_under(over, rows, select)?;
    items_in(over, &within, select)
}

/// The items of a select, in what surrounds it.
pub fn items_in(over: &Over<'_>, within: &Inside<'_>, select: u32) -> Result<ItemList, EvalFault>
    ensures { GivesBounded EvalFault.Memory EvalFault.Long (λ l. l) result (items.items_within (interface_of over.now.form.now) (around_over over.now) (seen_inside within.now) select) }
{
    let form = over.form;
    let inner = enter(over, within, select)?;
    let mut all = Items::new(over.alloc);
    let parts = parts_at(form, select);
    push_items(over, &inner, form.elements.len(), parts, &mut all)?;
    Ok(all)
}

/// Puts the items of parts behind others, through choices of which at most so many are nested.
fn push_items(
    over: &Over<'_>,
    within: &Inside<'_>,
    most: usize,
    parts: &[Part],
    all: &mut ItemList,
) -> Result<(), EvalFault>
    ensures { items.Adds result all.old all.new (items.items_among most (interface_of over.now.form.now) (around_over over.now) (seen_inside within.now) parts.now) }
{
    if most == 0 {
        return Ok(());
    }
    for part in parts {
        push_own(over, within, part, all)?;
        let inner = choices_inside(over, within, part)?;
        push_items(over, &inner, most - 1, choices_parts(over.form, part), all)?;
    }
    Ok(())
}

/// Puts the items of a part that is an item or an item set behind others.
fn push_own(
    over: &Over<'_>,
    within: &Inside<'_>,
    part: &Part,
    all: &mut ItemList,
) -> Result<(), EvalFault>
    ensures { items.Adds result all.old all.new (items.own_items (interface_of over.now.form.now) (around_over over.now) (seen_inside within.now) part.now) }
{
    match part {
        Part::Text(_) => Ok(()),
        Part::Element(number) => push_element(over, within, *number, all),
    }
}

fn push_element(
    over: &Over<'_>,
    within: &Inside<'_>,
    element: u32,
    all: &mut ItemList,
) -> Result<(), EvalFault>
    ensures { items.Adds result all.old all.new (items.own_by (interface_of over.now.form.now) (around_over over.now) (seen_inside within.now) element (element_at (interface_of over.now.form.now) element).sort) }
{
    match element_in(over.form, element) {
        Some(here) => match &here.kind {
            Kind::Item => push_written(over, within, element, all),
            Kind::Itemset => push_set(over, within, element, all),
            _ => Ok(()),
        },
        None => Ok(()),
    }
}

/// Puts an item that is written behind others.
fn push_written(
    over: &Over<'_>,
    within: &Inside<'_>,
    element: u32,
    all: &mut ItemList,
) -> Result<(), EvalFault>
    ensures { items.Adds result all.old all.new (items.written_item (interface_of over.now.form.now) (around_over over.now) (seen_inside within.now) element) }
{
    let inner = enter(over, within, element)?;
    push_item(over, &inner, element, all)
}

// ---- choices

/// What stands in a part that is choices: in any other, nothing.
fn choices_parts<'a>(form: &'a Form, part: &Part) -> &'a [Part]
    ensures { result.now ≡ items.choices_parts (interface_of form.now) part.now }
{
    match part {
        Part::Text(_) => &[],
        Part::Element(number) => {
            if is_choices_at(form, *number) {
                parts_at(form, *number)
            } else {
                &[]
            }
        }
    }
}

/// What surrounds what stands in a part that is choices.
fn choices_inside<'a>(
    over: &Over<'_>,
    within: &Inside<'a>,
    part: &Part,
) -> Result<Inside<'a>, EvalFault>
    ensures { GivesBounded EvalFault.Memory EvalFault.Long seen_inside result (items.choices_inside (interface_of over.now.form.now) (around_over over.now) (seen_inside within.now) part.now) }
{
    match part {
        Part::Text(_) => Ok(*within),
        Part::Element(number) => {
            if is_choices_at(over.form, *number) {
                enter(over, within, *number)
            } else {
                Ok(*within)
            }
        }
    }
}

fn is_choices_at(form: &Form, element: u32) -> bool
    ensures { result ≡ items.is_choices (element_at (interface_of form.now) element).sort }
{
    match element_in(form, element) {
        Some(here) => is_choices(&here.kind),
        None => false,
    }
}

fn is_choices(kind: &Kind) -> bool
    ensures { result ≡ items.is_choices (sort_of kind.now) }
{
    match kind {
        Kind::Choices => true,
        _ => false,
    }
}
