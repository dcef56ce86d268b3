//! The items of an item set (XForms 1.1, section 9.3.3): one for each node that it selects.

ghost use Rattle.std.specs.Prelude.{◌≡◌, Some};
ghost use Rattle.xf_def_values.specs.Bounded.{GivesBounded};
ghost use Rattle.xf_def_ui.specs.Elements.{element_at};
ghost use Rattle.xf_def_ui.specs.Interface.{interface_of};
ghost use Rattle.xf_def_ui.specs.Items as ui;
ghost use Rattle.xf_eval_context.specs.Inside.{seen_inside};
ghost use Rattle.xf_eval_context.specs.Over.{around_over};
ghost use Rattle.xf_items.specs.Items as items;

use crate::labels::push_item;
use xf_def_forest::{NodeId, NodeList};
use xf_def_ui::ItemList;
use xf_eval::EvalFault;
use xf_eval_context::{Inside, Over, Place, all_at, binding_at, context_in, standing_in};

/// Puts the items of an item set behind others.
pub(crate) fn push_set(
    over: &Over<'_>,
    within: &Inside<'_>,
    element: u32,
    all: &mut ItemList,
) -> Result<(), EvalFault>
    ensures { items.Adds result all.old all.new (ui.set_items (interface_of over.now.form.now) (around_over over.now) (seen_inside within.now) element (element_at (interface_of over.now.form.now) element)) }
{
    let situation = context_in(over, within, element)?;
    let binding = binding_at(over.form, element);
    let set = all_at(over, situation.model, binding, situation.focus)?;
    let around = Inside {
        model: situation.model,
        ..*within
    };
    push_placed(over, &around, element, &set, all)
}

/// Puts the items that stand at the nodes of a set behind others.
fn push_placed(
    over: &Over<'_>,
    within: &Inside<'_>,
    element: u32,
    set: &NodeList,
    all: &mut ItemList,
) -> Result<(), EvalFault>
    ensures { items.Adds result all.old all.new (items.placed_items (interface_of over.now.form.now) (around_over over.now) (seen_inside within.now) element set.now set.now) }
{
    let nodes = set.as_slice();
    for node in nodes {
        let inner = placed(set, within, *node)?;
        push_item(over, &inner, element, all)?;
    }
    Ok(())
}

/// What a node of a set has around it: its place in the set.
fn placed<'a>(set: &NodeList, within: &Inside<'a>, node: NodeId) -> Result<Inside<'a>, EvalFault>
    ensures { GivesBounded EvalFault.Memory EvalFault.Long seen_inside result (Some (items.placed set.now (seen_inside within.now) node.number)) }
{
    Ok(Inside {
        place: Place::On(standing_in(node, set)?),
        ..*within
    })
}
