//! The node that an element binds (XForms 1.1, sections 3.2.3 and 3.2.4).

ghost use Rattle.std.specs.Prelude.{◌≡◌, IfOk, map, option_map};
ghost use Rattle.xf_def_values.specs.Bounded.{GivesBounded};
ghost use Rattle.xf_name.specs.declared.axis.Axis.TheVariants.{Child};
ghost use Rattle.xf_def_forest.specs.Axis.{axis_of};
ghost use Rattle.xf_def_forest.specs.Forest.{IsLive};
ghost use Rattle.xf_def_forest.specs.Visit.{first_of, visits};
ghost use Rattle.xf_def_xpath.specs.Meaning.{meaning};
ghost use Rattle.xf_eval.specs.Live.{AroundStands};
ghost use Rattle.xf_eval_context.specs.Nested.StandIns.{stand_ins_of};
ghost use Rattle.xf_def_ui.specs.Around.{alone, first_bound};
ghost use Rattle.xf_form_elements.specs.Bound.{seen_bound};
ghost use Rattle.xf_controls.specs.Below as below;
ghost use Rattle.xf_controls.specs.Seen.{IsThere, number};
ghost use Rattle.xf_controls.specs.Surrounded.{around_in, first_from};

use std::alloc::Global;
use xf_def_forest::{Kind as NodeKind, NodeId};
use xf_def_syntax::{Expr, Tables};
use xf_eval::{Around, Context, EvalFault, nodes_in, value_at};
use xf_eval_context::nested::nested;
use xf_form_elements::Bound;
use xf_name::Axis;
use xf_tree::Forest;

pub(crate) fn is_bound(binding: Bound<'_>) -> bool
    ensures { result ≡ below.is_bound (seen_bound binding.entry) }
{
    match binding {
        Bound::Unbound => false,
        _ => true,
    }
}

/// The first node that is selected, and then what stands for it.
pub(crate) fn first_bound<A: Around>(
    alloc: Global,
    forest: &Forest,
    tables: &Tables,
    around: &A,
    model: u32,
    binding: Bound<'_>,
    focus: Option<NodeId>,
) -> Result<Option<NodeId>, EvalFault>
    requires around { AroundStands (A.given around.now) forest.now.forest.nodes }
    requires focus { IsThere focus forest.now.forest.nodes }
    ensures value { GivesBounded EvalFault.Memory EvalFault.Long (option_map number) result (first_bound (around_in (A.given around.now) tables.now forest.now.forest.nodes) model (seen_bound binding.entry) (option_map (λ n. alone n.number) focus)) }
    ensures live { IfOk result (λ found. IsThere found forest.now.forest.nodes) }
{
    let Some(focus) = focus else {
        return Ok(None);
    };
    match binding {
        Bound::Unbound => Ok(None),
        Bound::Nodes(expr) => first_selected(alloc, forest, around, model, expr, focus),
        Bound::ByBind(bind) => {
            let nodes = nested(alloc, forest, tables, bind, around)?;
            Ok(nodes.get(0))
        }
    }
}

fn first_selected<A: Around>(
    alloc: Global,
    forest: &Forest,
    around: &A,
    model: u32,
    expr: &Expr,
    focus: NodeId,
) -> Result<Option<NodeId>, EvalFault>
    requires around { AroundStands (A.given around.now) forest.now.forest.nodes }
    requires focus { IsLive focus.number forest.now.forest }
    ensures value { GivesBounded EvalFault.Memory EvalFault.Long (option_map number) result (first_from (A.given around.now) forest.now.forest.nodes model (meaning expr.now) focus.number) }
    ensures live { IfOk result (λ found. IsThere found forest.now.forest.nodes) }
{
    let value = value_at(alloc, forest, around, expr, &context_at(model, focus))?;
    let nodes = nodes_in(alloc, value);
    match nodes.get(0) {
        Some(node) => Ok(stands_for(forest, node)),
        None => Ok(None),
    }
}

/// A node alone as the context.
pub(crate) fn context_at(model: u32, node: NodeId) -> Context
    ensures { result ≡ record { model = model; node = node; position = 1; size = 1; current = node } }
{
    Context {
        model,
        node,
        position: 1,
        size: 1,
        current: node,
    }
}

/// A text stands for its parent, and a root for its document element.
fn stands_for(forest: &Forest, node: NodeId) -> Option<NodeId>
    requires live { IsLive node.number forest.now.forest }
    ensures value { option_map number result ≡ first_of (stand_ins_of (visits forest.now.forest.nodes) node.number) }
    ensures live { IsThere result forest.now.forest.nodes }
{
    match forest.kind(node) {
        NodeKind::Root => first_child(forest, node),
        NodeKind::Text => forest.parent(node),
        NodeKind::Element | NodeKind::Attribute => Some(node),
    }
}

fn first_child(forest: &Forest, node: NodeId) -> Option<NodeId>
    requires live { IsLive node.number forest.now.forest }
    ensures { option_map number result ≡ first_of (axis_of Child node.number (visits forest.now.forest.nodes)) }
{
    let mut walk = forest.axis(node, Axis::Child);
    walk.next()
}
