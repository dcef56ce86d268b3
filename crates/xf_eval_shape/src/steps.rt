//! Location paths over the shape (XPath 1.0, sections 2 to 2.5).

ghost use Rattle.std.specs.Prelude.{◌≡◌, [], ◌∷◌, true, map, Some, IfOk};
ghost use Rattle.std.specs.List.{list_all};
ghost use Rattle.xf_def_forest.specs.Forest.{IsLive};
ghost use Rattle.xf_def_forest.specs.Visit.{top_of};
ghost use Rattle.xf_def_xpath.specs.Given.{Given};
ghost use Rattle.xf_def_xpath.specs.Meaning.{focus_of, meaning, walk_of};
ghost use Rattle.xf_def_xpath.specs.Steps.{begun, begun_at, from_one, walked};
ghost use Rattle.xf_eval.specs.Live.{IsReady};
ghost use Rattle.xf_eval.specs.Taken.{taken};
ghost use Rattle.xf_eval_shape.specs.Fixed.{are_placed, is_fixed_step};
ghost use Rattle.xf_eval_shape.specs.Over.{shape_at};
ghost use Rattle.xf_eval_shape.specs.Spots.{AreSpots, is_spot, number_at, numbers_at, shaped};

use crate::leaf::{entered, is_sound, stands};
use crate::order::in_order;
use crate::places::reached_placed;
use crate::predicates::kept_by_all;
use crate::spot::Spot;
use crate::walk::reached;
use std::alloc::{AllocError, Global};
use xf_def_forest::NodeId;
use xf_def_syntax::{Expr, Start, Step, Test};
use xf_def_xpath::Context;
use xf_eval::Around;
use xf_name::Axis;
use xf_tree::Forest;

/// The nodes that a chain of steps reaches from these.
pub(crate) fn walked<A: Around>(
    alloc: Global,
    forest: &Forest,
    around: &A,
    steps: &[Step],
    from: Vec<Spot>,
    context: &Context,
) -> Result<Vec<Spot>, AllocError>
    requires ready { IsReady (A.given around.now) forest.now.forest.nodes context.now }
    requires fixed { list_all is_fixed_step steps.now ≡ true }
    requires spots { AreSpots forest.now.forest.nodes from.items }
    ensures value { IfOk result (λ found. walked (shape_at (A.given around.now) forest.now.forest.nodes context.now) (map walk_of steps.now) (numbers_at from.items) ≡ Some (numbers_at found.items)) }
    ensures spots { IfOk result (λ found. AreSpots forest.now.forest.nodes found.items) }
{
    let mut spots = from;
    for step in steps {
        spots = stepped(alloc, forest, around, step, spots, context)?;
    }
    Ok(spots)
}

/// The nodes that a step reaches from these.
fn stepped<A: Around>(
    alloc: Global,
    forest: &Forest,
    around: &A,
    step: &Step,
    from: Vec<Spot>,
    context: &Context,
) -> Result<Vec<Spot>, AllocError>
    requires ready { IsReady (A.given around.now) forest.now.forest.nodes context.now }
    requires fixed { is_fixed_step step.now ≡ true }
    requires spots { AreSpots forest.now.forest.nodes from.items }
    ensures value { IfOk result (λ found. walk_of step.now (shape_at (A.given around.now) forest.now.forest.nodes context.now) (numbers_at from.items) ≡ Some (numbers_at found.items)) }
    ensures spots { IfOk result (λ found. AreSpots forest.now.forest.nodes found.items) }
{
    let predicates = step.predicates.as_slice();
    if step.is_below {
        let below = all_below(alloc, forest, &from)?;
        return taken(
            alloc, forest, around, step.axis, &step.test, predicates, &below, context,
        );
    }
    taken(
        alloc, forest, around, step.axis, &step.test, predicates, &from, context,
    )
}

/// All from these nodes down, where a step behind `//` begins.
pub fn all_below(alloc: Global, forest: &Forest, from: &[Spot]) -> Result<Vec<Spot>, AllocError>
    requires { AreSpots forest.now.forest.nodes from.now }
    ensures value { IfOk result (λ found. numbers_at found.items ≡ begun_at true (shaped forest.now.forest.nodes) (numbers_at from.now)) }
    ensures spots { IfOk result (λ found. AreSpots forest.now.forest.nodes found.items) }
{
    let mut found = Vec::new(alloc);
    for spot in from {
        let below = reached(alloc, forest, *spot, Axis::DescendantOrSelf, &Test::Node)?;
        found.extend_from_slice(&below)?;
    }
    in_order(alloc, forest, &found)
}

/// What the axis, the test and the predicates of a step select from each of these nodes, in document order, each once.
pub fn taken<A: Around>(
    alloc: Global,
    forest: &Forest,
    around: &A,
    axis: Axis,
    test: &Test,
    predicates: &[Expr],
    from: &[Spot],
    context: &Context,
) -> Result<Vec<Spot>, AllocError>
    requires ready { IsReady (A.given around.now) forest.now.forest.nodes context.now }
    requires placed { are_placed predicates.now ≡ true }
    requires spots { AreSpots forest.now.forest.nodes from.now }
    ensures value { IfOk result (λ found. taken axis test.now (map meaning predicates.now) (shape_at (A.given around.now) forest.now.forest.nodes context.now) (numbers_at from.now) ≡ Some (numbers_at found.items)) }
    ensures spots { IfOk result (λ found. AreSpots forest.now.forest.nodes found.items) }
{
    let mut found = Vec::new(alloc);
    for spot in from {
        let one = from_one(
            alloc, forest, around, axis, test, predicates, *spot, context,
        )?;
        found.extend_from_slice(&one)?;
    }
    in_order(alloc, forest, &found)
}

/// What they select from one node: positions count from it.
fn from_one<A: Around>(
    alloc: Global,
    forest: &Forest,
    around: &A,
    axis: Axis,
    test: &Test,
    predicates: &[Expr],
    spot: Spot,
    context: &Context,
) -> Result<Vec<Spot>, AllocError>
    requires ready { IsReady (A.given around.now) forest.now.forest.nodes context.now }
    requires placed { are_placed predicates.now ≡ true }
    requires spot { is_spot forest.now.forest.nodes spot ≡ true }
    ensures value { IfOk result (λ found. from_one axis test.now (map meaning predicates.now) (shape_at (A.given around.now) forest.now.forest.nodes context.now) (number_at spot) ≡ Some (numbers_at found.items)) }
    ensures spots { IfOk result (λ found. AreSpots forest.now.forest.nodes found.items) }
{
    if let [Expr::Number(_, number), rest @ ..] = predicates {
        let decimals = around.decimals();
        let first = reached_placed(alloc, forest, spot, axis, test, *number, decimals)?;
        return kept_by_all(alloc, forest, around, rest, first, context);
    }
    let nodes = reached(alloc, forest, spot, axis, test)?;
    kept_by_all(alloc, forest, around, predicates, nodes, context)
}

/// Where a path begins: at the top of the context node's tree, or at the context node.
pub fn begun(
    alloc: Global,
    forest: &Forest,
    start: Start,
    context: &Context,
) -> Result<Vec<Spot>, AllocError>
    requires node { IsLive context.now.node.number forest.now.forest }
    ensures value { IfOk result (λ found. (given : Given) → numbers_at found.items ≡ begun start (shape_at given forest.now.forest.nodes context.now) (focus_of context.now)) }
    ensures spots { IfOk result (λ found. AreSpots forest.now.forest.nodes found.items) }
{
    let mut found = Vec::new(alloc);
    found.push(first_of(forest, start, context))?;
    Ok(found)
}

fn first_of(forest: &Forest, start: Start, context: &Context) -> Spot
    requires node { IsLive context.now.node.number forest.now.forest }
    ensures value { (given : Given) → number_at result ∷ [] ≡ begun start (shape_at given forest.now.forest.nodes context.now) (focus_of context.now) }
    ensures spot { is_spot forest.now.forest.nodes result ≡ true }
{
    match start {
        Start::Root => top_of(forest, context.node),
        Start::Context => entered(forest, context.node),
    }
}

/// The top of the tree of a node in the shape: a text that the shape does not have is its own.
fn top_of(forest: &Forest, node: NodeId) -> Spot
    requires { IsLive node.number forest.now.forest }
    ensures value { number_at result ≡ top_of node.number (shaped forest.now.forest.nodes) }
    ensures spot { is_spot forest.now.forest.nodes result ≡ true }
{
    is_sound(forest);
    if stands(forest, node) {
        entered(forest, forest.top(node))
    } else {
        entered(forest, node)
    }
}
