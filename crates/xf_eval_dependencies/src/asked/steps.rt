//! What steps and predicates ask.

ghost use Rattle.std.specs.Prelude.{◌≡◌, ◌++◌, ◌&&◌, ◌||◌, true, Some, filter, map, IfOk, OnOk};
ghost use Rattle.std.specs.List.{flat_map, list_all};
ghost use Rattle.xf_eval.specs.Live.{IsReady};
ghost use Rattle.xf_eval.specs.Taken.{taken};
ghost use Rattle.xf_def_xpath.specs.Asked.{lists_below, read_for};
ghost use Rattle.xf_def_xpath.specs.Asked as lang;
ghost use Rattle.xf_def_xpath.specs.AskedSteps.{filtered, goes_up, if_tight, is_pair, kind_read, lists_of, meets_texts, read_if, stepped, tells_kinds, walks_asked};
ghost use Rattle.xf_def_xpath.specs.Reads.{trace, trace_of_step};
ghost use Rattle.xf_def_xpath.specs.Setting.{in_order};
ghost use Rattle.xf_eval_shape.specs.Fixed.{are_placed, is_fixed_step};
ghost use Rattle.xf_eval_shape.specs.Over.{shape_at};
ghost use Rattle.xf_eval_shape.specs.Spots.{AreSpots, is_spot, number_at, numbers_at, shaped};
ghost use Rattle.xf_eval_dependencies.specs.Asked.Beside.{goes_beside, is_text_spot, text_of};
ghost use Rattle.xf_eval_dependencies.specs.Asked.Tells.{Stands, Tells, is_list};

use crate::asked::asked::{Asked, as_set};
use crate::asked::lists::{push_below, push_kind_read, push_looks, push_read_if};
use std::alloc::{AllocError, Global};
use xf_def_forest::NodeList;
use xf_def_syntax::{Expr, Step};
use xf_def_xpath::Context;
use xf_eval::Around;
use xf_eval_shape::{Spot, all_below, in_order, is_kind, is_sound, is_text, kept_by_all, taken};
use xf_name::Axis;
use xf_tree::Forest;

/// What a chain of steps asks from what was asked before.
pub fn walks_asked<A: Around>(
    alloc: Global,
    forest: &Forest,
    around: &A,
    steps: &[Step],
    asked: Asked,
    context: &Context,
) -> Result<Asked, AllocError>
    requires ready { IsReady (A.given around.now) forest.now.forest.nodes context.now }
    requires fixed { list_all is_fixed_step steps.now ≡ true }
    requires stands { Stands forest.now.forest.nodes asked }
    ensures tells { IfOk result (λ told. (a : lang.Asked) → Tells forest.now.forest.nodes asked a → Tells forest.now.forest.nodes told (walks_asked (shape_at (A.given around.now) forest.now.forest.nodes context.now) (map trace_of_step steps.now) a)) }
    ensures stands { IfOk result (λ told. Stands forest.now.forest.nodes told) }
{
    let mut left = asked;
    for step in steps {
        left = step_asked(alloc, forest, around, step, left, context)?;
    }
    Ok(as_set(left))
}

/// What a step asks from what was asked before.
fn step_asked<A: Around>(
    alloc: Global,
    forest: &Forest,
    around: &A,
    step: &Step,
    asked: Asked,
    context: &Context,
) -> Result<Asked, AllocError>
    requires ready { IsReady (A.given around.now) forest.now.forest.nodes context.now }
    requires fixed { is_fixed_step step.now ≡ true }
    requires stands { Stands forest.now.forest.nodes asked }
    ensures tells { IfOk result (λ told. (a : lang.Asked) → Tells forest.now.forest.nodes asked a → Tells forest.now.forest.nodes told ((trace_of_step step.now).asked (shape_at (A.given around.now) forest.now.forest.nodes context.now) a)) }
    ensures stands { IfOk result (λ told. Stands forest.now.forest.nodes told) }
{
    is_sound(forest);
    let is_loose = is_loose_after(step, asked.is_loose);
    let set = asked.set;
    let mut reads = asked.reads;
    let mut looks = asked.looks;
    if !step.is_below {
        push_from(forest, step, &set, &mut reads, &mut looks)?;
        return Ok(Asked {
            set: stepped(alloc, forest, around, step, is_loose, &set, context)?,
            is_loose,
            is_truth: false,
            reads,
            looks,
        });
    }
    let below = all_below(alloc, forest, &set)?;
    push_from(forest, step, &below, &mut reads, &mut looks)?;
    push_above(forest, step, &set, &mut reads, &mut looks)?;
    Ok(Asked {
        set: stepped(alloc, forest, around, step, is_loose, &below, context)?,
        is_loose,
        is_truth: false,
        reads,
        looks,
    })
}

/// The nodes that a step can reach from these; where it is loose its predicates keep every node. A text that stands for several is reached
/// from itself, too.
fn stepped<A: Around>(
    alloc: Global,
    forest: &Forest,
    around: &A,
    step: &Step,
    is_loose: bool,
    from: &[Spot],
    context: &Context,
) -> Result<Vec<Spot>, AllocError>
    requires ready { IsReady (A.given around.now) forest.now.forest.nodes context.now }
    requires fixed { is_fixed_step step.now ≡ true }
    requires spots { AreSpots forest.now.forest.nodes from.now }
    ensures value { IfOk result (λ found. numbers_at found.items ≡ stepped step.now.is_written step.now.axis step.now.test (if_tight is_loose (map trace step.now.predicates)) (shape_at (A.given around.now) forest.now.forest.nodes context.now) (numbers_at from.now)) }
    ensures spots { IfOk result (λ found. AreSpots forest.now.forest.nodes found.items) }
{
    is_sound(forest);
    let found = tried(alloc, forest, around, step, is_loose, from, context)?;
    if keeps_texts(step) {
        return with_texts(alloc, forest, found, from);
    }
    Ok(found)
}

/// The nodes that its axis, its test and its predicates reach.
fn tried<A: Around>(
    alloc: Global,
    forest: &Forest,
    around: &A,
    step: &Step,
    is_loose: bool,
    from: &[Spot],
    context: &Context,
) -> Result<Vec<Spot>, AllocError>
    requires ready { IsReady (A.given around.now) forest.now.forest.nodes context.now }
    requires fixed { is_fixed_step step.now ≡ true }
    requires spots { AreSpots forest.now.forest.nodes from.now }
    ensures value { IfOk result (λ found. taken step.now.axis step.now.test (if_tight is_loose (map trace step.now.predicates)) (shape_at (A.given around.now) forest.now.forest.nodes context.now) (numbers_at from.now) ≡ Some (numbers_at found.items)) }
    ensures spots { IfOk result (λ found. AreSpots forest.now.forest.nodes found.items) }
{
    if is_loose {
        return taken(
            alloc,
            forest,
            around,
            step.axis,
            &step.test,
            &[],
            from,
            context,
        );
    }
    let predicates = step.predicates.as_slice();
    taken(
        alloc, forest, around, step.axis, &step.test, predicates, from, context,
    )
}

/// These nodes and the texts among those at which a step begins, in document order.
fn with_texts(
    alloc: Global,
    forest: &Forest,
    found: Vec<Spot>,
    from: &[Spot],
) -> Result<Vec<Spot>, AllocError>
    requires found { AreSpots forest.now.forest.nodes found.items }
    requires from { AreSpots forest.now.forest.nodes from.now }
    ensures value { IfOk result (λ all. numbers_at all.items ≡ in_order (shaped forest.now.forest.nodes) (numbers_at found.items ++ flat_map (text_of (shaped forest.now.forest.nodes)) (numbers_at from.now))) }
    ensures spots { IfOk result (λ all. AreSpots forest.now.forest.nodes all.items) }
{
    is_sound(forest);
    let mut all = found;
    for spot in from {
        push_text(forest, *spot, &mut all)?;
    }
    in_order(alloc, forest, &all)
}

/// Puts a text behind the others.
fn push_text(forest: &Forest, spot: Spot, spots: &mut Vec<Spot>) -> Result<(), AllocError>
    requires { is_spot forest.now.forest.nodes spot ≡ true }
    ensures value { OnOk result (numbers_at spots.new.items ≡ numbers_at spots.old.items ++ text_of (shaped forest.now.forest.nodes) (number_at spot)) }
    ensures spots { OnOk result (AreSpots forest.now.forest.nodes spots.old.items → AreSpots forest.now.forest.nodes spots.new.items) }
{
    is_sound(forest);
    if is_text_spot(forest, spot) {
        spots.push(spot)?;
    }
    Ok(())
}

/// Whether the node is a text of the shape.
fn is_text_spot(forest: &Forest, spot: Spot) -> bool
    ensures { result ≡ is_text_spot forest.now.forest.nodes spot }
{
    match spot {
        Spot::Node(node) => is_text(forest, node),
        Spot::TextOf(_) => true,
        Spot::Outside(_) => false,
    }
}

/// Puts what is read and looked at from the nodes at which a step begins behind the others.
fn push_from(
    forest: &Forest,
    step: &Step,
    from: &[Spot],
    reads: &mut NodeList,
    looks: &mut NodeList,
) -> Result<(), AllocError>
    requires { AreSpots forest.now.forest.nodes from.now }
    ensures reads { OnOk result (reads.new ≡ reads.old ++ read_if (tells_kinds step.now.is_written step.now.axis step.now.test) (flat_map (kind_read step.now.axis (shaped forest.now.forest.nodes)) (numbers_at from.now))) }
    ensures looks { OnOk result (looks.new ≡ looks.old ++ filter (is_list forest.now.forest.nodes) (flat_map (lists_of step.now.axis (shaped forest.now.forest.nodes)) (numbers_at from.now))) }
{
    let tells_kinds = tells_kinds(step);
    for spot in from {
        push_kind_read(forest, tells_kinds, step.axis, *spot, reads)?;
        push_looks(forest, step.axis, *spot, looks)?;
    }
    Ok(())
}

/// Puts what is read and looked at from the nodes before `//` behind the others.
fn push_above(
    forest: &Forest,
    step: &Step,
    set: &[Spot],
    reads: &mut NodeList,
    looks: &mut NodeList,
) -> Result<(), AllocError>
    requires { AreSpots forest.now.forest.nodes set.now }
    ensures reads { OnOk result (reads.new ≡ reads.old ++ read_if (is_pair step.now.is_below step.now.axis) (flat_map (read_for (shaped forest.now.forest.nodes)) (numbers_at set.now))) }
    ensures looks { OnOk result (looks.new ≡ looks.old ++ filter (is_list forest.now.forest.nodes) (flat_map (lists_below (shaped forest.now.forest.nodes)) (numbers_at set.now))) }
{
    let is_pair = is_pair(step);
    for spot in set {
        push_read_if(forest, is_pair, *spot, reads)?;
        push_below(forest, *spot, looks)?;
    }
    Ok(())
}

/// What predicates ask of a set: on a loose one each keeps every node.
pub fn filtered<A: Around>(
    alloc: Global,
    forest: &Forest,
    around: &A,
    predicates: &[Expr],
    asked: Asked,
    context: &Context,
) -> Result<Asked, AllocError>
    requires ready { IsReady (A.given around.now) forest.now.forest.nodes context.now }
    requires placed { are_placed predicates.now ≡ true }
    requires stands { Stands forest.now.forest.nodes asked }
    ensures tells { IfOk result (λ told. (a : lang.Asked) → Tells forest.now.forest.nodes asked a → Tells forest.now.forest.nodes told (filtered (shape_at (A.given around.now) forest.now.forest.nodes context.now) (map trace predicates.now) a)) }
    ensures stands { IfOk result (λ told. Stands forest.now.forest.nodes told) }
{
    if asked.is_loose {
        return Ok(as_set(asked));
    }
    let Asked {
        set,
        is_loose,
        is_truth: _,
        reads,
        looks,
    } = asked;
    Ok(Asked {
        set: kept_by_all(alloc, forest, around, predicates, set, context)?,
        is_loose,
        is_truth: false,
        reads,
        looks,
    })
}

/// Whether the set is loose once the step is taken.
fn is_loose_after(step: &Step, is_loose: bool) -> bool
    ensures { result ≡ (is_loose || tells_kinds step.now.is_written step.now.axis step.now.test || is_pair step.now.is_below step.now.axis) }
{
    is_loose || tells_kinds(step) || is_pair(step)
}

/// Whether the texts at which it begins are reached, too.
fn keeps_texts(step: &Step) -> bool
    ensures { result ≡ (tells_kinds step.now.is_written step.now.axis step.now.test && goes_beside step.now.axis) }
{
    tells_kinds(step) && goes_beside(step.axis)
}

/// Whether texts may stand on the axis.
fn meets_texts(axis: Axis) -> bool
    ensures { result ≡ meets_texts axis }
{
    match axis {
        Axis::Child
        | Axis::Descendant
        | Axis::DescendantOrSelf
        | Axis::FollowingSibling
        | Axis::PrecedingSibling => true,
        _ => false,
    }
}

/// Whether the axis goes to siblings.
fn goes_beside(axis: Axis) -> bool
    ensures { result ≡ goes_beside axis }
{
    match axis {
        Axis::FollowingSibling | Axis::PrecedingSibling => true,
        _ => false,
    }
}

/// Whether the axis stays at or above the node.
fn goes_up(axis: Axis) -> bool
    ensures { result ≡ goes_up axis }
{
    match axis {
        Axis::Self_ | Axis::Parent | Axis::Ancestor | Axis::AncestorOrSelf => true,
        _ => false,
    }
}

/// Whether the test is written out and may meet texts.
fn tells_kinds(step: &Step) -> bool
    ensures { result ≡ tells_kinds step.now.is_written step.now.axis step.now.test }
{
    step.is_written && is_kind(&step.test) && meets_texts(step.axis)
}

/// Whether `//` stands before a step that stays at or above the texts that it met.
fn is_pair(step: &Step) -> bool
    ensures { result ≡ is_pair step.now.is_below step.now.axis }
{
    step.is_below && goes_up(step.axis)
}
