//! What actions read.

ghost use Rattle.std.specs.Prelude.{Some, option_map};
ghost use Rattle.xf_def_xpath.specs.Meaning.{meaning};
ghost use Rattle.xf_def_ui.specs.Around.{alone};
ghost use Rattle.xf_def_machine.specs.Acting.{acting as acts, text_for, truth_for, whole_for};
ghost use Rattle.xf_def_machine.specs.Insert.{moved_focus, set_asked};
ghost use Rattle.xf_actions.specs.Performs.{Reads};
ghost use Rattle.xf_actions.specs.Seen.{acting_of, fired_of, focus_of};
ghost use Rattle.xf_actions.specs.Texts.{bound_for};
ghost use Rattle.xf_def_form.specs.Formed.{profile};
ghost use Rattle.xf_actions.specs.Fault.{means};
ghost use Rattle.xf_engine_world.specs.State.{state_of};

use crate::form_world::FormWorld;
use crate::surrounding::{over_event, over_quiet};
use xf_actions::{Acting, EventFault, Fired, Focus};
use xf_def_forest::{NodeId, NodeList};
use xf_def_syntax::Expr;
use xf_eval_context::{
    all_bound, alone, binding_at, context_under, first_bound, first_selected, text,
    truth as truth_value, whole as whole_value,
};
use xf_name::Word;
use xf_repeat::{Target, handler_rows};

/// The action that is this element, called for this event: none where an index is 0 or it has no context node. It stands in the rows of the
/// event's target for each repeat around both, else in the indexed ones.
pub(crate) fn acting(
    world: &FormWorld,
    fired: &Fired,
    element: u32,
) -> Result<Option<Acting>, EventFault>
    ensures { Reads means (option_map (acting_of fired.now)) (state_of world.now) result (acts profile (fired_of fired.now) element (state_of world.now)) }
{
    let target = Target {
        element: fired.target,
        rows: fired.rows.as_slice(),
    };
    let work = &world.work;
    let chain = handler_rows(world.alloc, work.form(), work.indexes(), target, element)?;
    let Some(rows) = chain else {
        return Ok(None);
    };
    let situation = context_under(&over_quiet(world), rows.as_slice(), element)?;
    match situation.focus {
        Some(focus) => Ok(Some(Acting {
            element,
            rows,
            model: situation.model,
            focus,
        })),
        None => Ok(None),
    }
}

pub(crate) fn truth(
    world: &FormWorld,
    fired: &Fired,
    acting: &Acting,
    expr: &Expr,
) -> Result<bool, EventFault>
    ensures { Reads means (λ b. b) (state_of world.now) result (truth_for profile (acting_of fired.now acting.now) (state_of world.now) (meaning expr.now)) }
{
    let over = over_event(world, fired);
    let truth = truth_value(&over, acting.model, &acting.focus, expr)?;
    Ok(truth)
}

/// The value of an expression at a node, as a text.
pub(crate) fn text_at(
    world: &FormWorld,
    fired: &Fired,
    acting: &Acting,
    node: NodeId,
    expr: &Expr,
) -> Result<Word, EventFault>
    ensures { Reads means (λ w. w) (state_of world.now) result (text_for profile (acting_of fired.now acting.now) (state_of world.now) (alone node.number) (meaning expr.now)) }
{
    let over = over_event(world, fired);
    let text = text(&over, acting.model, &alone(node), expr)?;
    Ok(text)
}

/// The value of an expression as a whole number: none for NaN.
pub(crate) fn whole(
    world: &FormWorld,
    fired: &Fired,
    acting: &Acting,
    focus: &Focus,
    expr: &Expr,
) -> Result<Option<i64>, EventFault>
    ensures { Reads means (λ k. k) (state_of world.now) result (whole_for profile (acting_of fired.now acting.now) (state_of world.now) (focus_of focus.now) (meaning expr.now)) }
{
    let over = over_event(world, fired);
    let number = whole_value(&over, acting.model, focus, expr)?;
    Ok(number)
}

/// The node that an action binds.
pub(crate) fn bound(
    world: &FormWorld,
    fired: &Fired,
    acting: &Acting,
) -> Result<Option<NodeId>, EventFault>
    ensures { Reads means (option_map (λ n. n.number)) (state_of world.now) result (bound_for profile (acting_of fired.now acting.now) (state_of world.now)) }
{
    let over = over_event(world, fired);
    let binding = binding_at(over.form, acting.element);
    let node = first_bound(&over, acting.model, binding, &acting.focus)?;
    Ok(node)
}

/// The nodes that an action binds.
pub(crate) fn bound_set(
    world: &FormWorld,
    fired: &Fired,
    acting: &Acting,
    focus: &Focus,
) -> Result<NodeList, EventFault>
    ensures { Reads means (λ ns. ns) (state_of world.now) result (set_asked profile (acting_of fired.now acting.now) (focus_of focus.now) (state_of world.now)) }
{
    let over = over_event(world, fired);
    let binding = binding_at(over.form, acting.element);
    let nodes = all_bound(&over, acting.model, binding, focus)?;
    Ok(nodes)
}

/// The context that an attribute `context` gives: none where that selects nothing.
pub(crate) fn moved(
    world: &FormWorld,
    fired: &Fired,
    acting: &Acting,
    context: &Option<Expr>,
) -> Result<Option<Focus>, EventFault>
    ensures { Reads means (option_map focus_of) (state_of world.now) result (moved_focus profile (acting_of fired.now acting.now) (option_map meaning context.now) (state_of world.now)) }
{
    match context {
        Some(expr) => moved_by(world, fired, acting, expr),
        None => Ok(Some(acting.focus)),
    }
}

fn moved_by(
    world: &FormWorld,
    fired: &Fired,
    acting: &Acting,
    expr: &Expr,
) -> Result<Option<Focus>, EventFault>
    ensures { Reads means (option_map focus_of) (state_of world.now) result (moved_focus profile (acting_of fired.now acting.now) (Some (meaning expr.now)) (state_of world.now)) }
{
    let over = over_event(world, fired);
    let node = first_selected(&over, acting.model, expr, &acting.focus)?;
    match node {
        Some(node) => Ok(Some(alone(node))),
        None => Ok(None),
    }
}
