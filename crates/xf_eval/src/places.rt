//! Predicates that are literal numbers: each keeps the node at one place (XPath 1.0, section 2.4).

ghost use Rattle.std.specs.Prelude.{◌≡◌, ◌<◌, ◌/◌, List, IfOk, IfSome, unsigned_abs};
ghost use Rattle.xf_num.specs.Number.{scale, size_limit};
ghost use Rattle.xf_def_values.specs.Conversions.{whole};
ghost use Rattle.xf_def_xpath.specs.Comparisons.{is_same_number};
ghost use Rattle.xf_def_forest.specs.declared.content.Node.{Node};
ghost use Rattle.xf_def_forest.specs.Forest.{IsLive};
ghost use Rattle.xf_def_xpath.specs.Steps.{reached};
ghost use Rattle.xf_eval.specs.Live.{AllLive};
ghost use Rattle.xf_eval.specs.Places.{BeginsWith, IsPosition, Keeps};
ghost use Rattle.xf_eval.specs.Worth.{seen};

use crate::convert::whole;
use crate::sets::{listed, reached_at};
use std::alloc::{AllocError, Global};
use std::cmp::Ordering;
use xf_def_forest::{NodeId, NodeList};
use xf_def_syntax::{Expr, Test};
use xf_name::Axis;
use xf_num::{Decimals, Num};
use xf_tree::Forest;

/// The number that the first predicate is, where it is a literal.
pub(crate) fn number_first(predicates: &[Expr]) -> Option<Num>
    ensures { IfSome result (λ number. BeginsWith number predicates.now) }
{
    match predicates.first() {
        Some(Expr::Number(_, number)) => Some(*number),
        _ => None,
    }
}

/// The position that a number is, from 1; 0 where it is none.
pub fn position_of(number: Num, decimals: Decimals) -> usize
    ensures { IsPosition decimals number result }
{
    let place = wholes_in(number, decimals);
    if is_at(number, place, decimals) {
        return place;
    }
    0
}

/// The whole part of the size of a number, of NaN 0.
fn wholes_in(number: Num, decimals: Decimals) -> usize
    ensures size { IfSome number (λ k. unsigned_abs k < size_limit) }
    ensures place { IfSome number (λ k. result ≡ unsigned_abs k / scale decimals) }
{
    match number.units() {
        Some(units) => (units.unsigned_abs() / u128::from(decimals.units_in_one())) as usize,
        None => 0,
    }
}

fn is_at(number: Num, place: usize, decimals: Decimals) -> bool
    ensures { result ≡ is_same_number number (whole decimals place) }
{
    number.order(whole(place, decimals)) == Some(Ordering::Equal)
}

/// Of these nodes the one at the position that a number is, alone, or none.
pub(crate) fn placed(
    alloc: Global,
    nodes: &NodeList,
    number: Num,
    decimals: Decimals,
) -> Result<NodeList, AllocError>
    ensures value { IfOk result (λ kept. Keeps decimals number nodes.now kept) }
    ensures live { IfOk result (λ kept. (all : List Node) → AllLive nodes.now all → AllLive kept all) }
{
    let place = position_of(number, decimals);
    if place == 0 {
        return Ok(NodeList::new(alloc));
    }
    listed(alloc, nodes.get(place - 1))
}

/// The same of what the axis and the test select from a node, of which the walk goes no further than there.
pub fn reached_placed(
    alloc: Global,
    forest: &Forest,
    node: NodeId,
    axis: Axis,
    test: &Test,
    number: Num,
    decimals: Decimals,
) -> Result<NodeList, AllocError>
    requires { IsLive node.number forest.now.forest }
    ensures value { IfOk result (λ kept. Keeps decimals number (reached axis test.now (seen forest.now.forest.nodes) node.number) kept) }
    ensures live { IfOk result (λ kept. AllLive kept forest.now.forest.nodes) }
{
    forest.are_trees();
    let place = position_of(number, decimals);
    if place == 0 {
        return Ok(NodeList::new(alloc));
    }
    listed(alloc, reached_at(forest, node, axis, test, place - 1))
}
