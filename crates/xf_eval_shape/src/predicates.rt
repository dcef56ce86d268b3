//! Predicates (XPath 1.0, section 2.4) that go by position and size alone.

ghost use Rattle.std.specs.Prelude.{◌≡◌, ◌++◌, length, map, true, Some, IfOk, OnOk};
ghost use Rattle.xf_def_xpath.specs.Meaning.{meaning};
ghost use Rattle.xf_def_xpath.specs.Steps.{kept_by_all, kept_from};
ghost use Rattle.xf_eval.specs.Live.{IsReady};
ghost use Rattle.xf_eval_shape.specs.Fixed.{are_placed, is_placed};
ghost use Rattle.xf_eval_shape.specs.Over.{shape_at};
ghost use Rattle.xf_eval_shape.specs.Spots.{AreSpots, numbers_at};
ghost use Rattle.xf_eval_shape.specs.Steps.{spot_if};
ghost use Rattle.xf_eval_shape.specs.Told.{IsTold};

use crate::leaf::is_sound;
use crate::places::placed;
use crate::spot::Spot;
use std::alloc::{AllocError, Global};
use xf_def_syntax::Expr;
use xf_def_xpath::Context;
use xf_eval::{Around, is_true_at, value_at};
use xf_tree::Forest;

/// The nodes that all predicates keep, each asked of those that the one before left.
pub fn kept_by_all<A: Around>(
    alloc: Global,
    forest: &Forest,
    around: &A,
    predicates: &[Expr],
    spots: Vec<Spot>,
    context: &Context,
) -> Result<Vec<Spot>, AllocError>
    requires ready { IsReady (A.given around.now) forest.now.forest.nodes context.now }
    requires placed { are_placed predicates.now ≡ true }
    requires spots { AreSpots forest.now.forest.nodes spots.items }
    ensures value { IfOk result (λ left. kept_by_all (shape_at (A.given around.now) forest.now.forest.nodes context.now) (map meaning predicates.now) (numbers_at spots.items) ≡ Some (numbers_at left.items)) }
    ensures spots { IfOk result (λ left. AreSpots forest.now.forest.nodes left.items) }
{
    let mut left = spots;
    for predicate in predicates {
        left = kept_by(alloc, forest, around, predicate, &left, context)?;
    }
    Ok(left)
}

/// The nodes at which a predicate is true: each has its position among them.
fn kept_by<A: Around>(
    alloc: Global,
    forest: &Forest,
    around: &A,
    predicate: &Expr,
    spots: &[Spot],
    context: &Context,
) -> Result<Vec<Spot>, AllocError>
    requires ready { IsReady (A.given around.now) forest.now.forest.nodes context.now }
    requires placed { is_placed predicate.now ≡ true }
    requires spots { AreSpots forest.now.forest.nodes spots.now }
    ensures value { IfOk result (λ left. kept_from (shape_at (A.given around.now) forest.now.forest.nodes context.now) (meaning predicate.now) (length spots.now) 1 (numbers_at spots.now) ≡ Some (numbers_at left.items)) }
    ensures spots { IfOk result (λ left. AreSpots forest.now.forest.nodes left.items) }
{
    if let Expr::Number(_, number) = predicate {
        return placed(alloc, spots, *number, around.decimals());
    }
    // No memory holds a list that a position cannot count.
    let Ok(size) = u32::try_from(spots.len()) else {
        return Err(AllocError);
    };
    let mut left = Vec::new(alloc);
    for at in 0..size {
        let truth = is_true(alloc, forest, around, predicate, at + 1, size, context)?;
        push_if(&mut left, truth, spots[at as usize])?;
    }
    Ok(left)
}

/// Whether a predicate is true at a position. A string of it that has more than 4 MiB counts as want of memory: none of a form's
/// expressions is as long.
fn is_true<A: Around>(
    alloc: Global,
    forest: &Forest,
    around: &A,
    predicate: &Expr,
    position: u32,
    size: u32,
    context: &Context,
) -> Result<bool, AllocError>
    requires ready { IsReady (A.given around.now) forest.now.forest.nodes context.now }
    requires placed { is_placed predicate.now ≡ true }
    ensures { IfOk result (λ truth. IsTold (shape_at (A.given around.now) forest.now.forest.nodes context.now) (meaning predicate.now) position size truth) }
{
    is_sound(forest);
    let place = Context {
        model: context.model,
        node: context.node,
        position,
        size,
        current: context.current,
    };
    match value_at(alloc, forest, around, predicate, &place) {
        Ok(value) => Ok(is_true_at(&value, position, around.decimals())),
        Err(_) => Err(AllocError),
    }
}

/// Puts a node behind the others, where it is kept.
fn push_if(spots: &mut Vec<Spot>, is_kept: bool, spot: Spot) -> Result<(), AllocError>
    ensures { OnOk result (spots.new.items ≡ spots.old.items ++ spot_if is_kept spot) }
{
    if is_kept {
        spots.push(spot)?;
    }
    Ok(())
}
