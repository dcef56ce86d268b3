//! Predicates that are literal numbers, over the shape: each keeps the node at one place (XPath 1.0, section 2.4).

ghost use Rattle.std.specs.Prelude.{◌≡◌, List, ◌&&◌, false, true, IfOk};
ghost use Rattle.xf_def_forest.specs.declared.content.Node.{Node};
ghost use Rattle.xf_def_xpath.specs.AskedSteps.{is_kind};
ghost use Rattle.xf_def_xpath.specs.Steps.{reached};
ghost use Rattle.xf_eval.specs.Places.{Keeps};
ghost use Rattle.xf_eval_shape.specs.Spots.{AreSpots, is_spot, number_at, numbers_at, shaped};
ghost use Rattle.xf_eval_shape.specs.Steps.{has_texts};

use crate::leaf::is_sound;
use crate::spot::Spot;
use crate::walk::{goes_to_texts, owned, reached};
use std::alloc::{AllocError, Global};
use xf_def_forest::NodeId;
use xf_def_syntax::Test;
use xf_eval::position_of;
use xf_name::Axis;
use xf_num::{Decimals, Num};
use xf_tree::Forest;

/// Of these nodes the one at the position that a number is, alone, or none.
pub(crate) fn placed(
    alloc: Global,
    spots: &[Spot],
    number: Num,
    decimals: Decimals,
) -> Result<Vec<Spot>, AllocError>
    ensures value { IfOk result (λ kept. Keeps decimals number (numbers_at spots.now) (numbers_at kept.items)) }
    ensures spots { IfOk result (λ kept. (nodes : List Node) → AreSpots nodes spots.now → AreSpots nodes kept.items) }
{
    let place = position_of(number, decimals);
    let mut kept = Vec::new(alloc);
    if place == 0 {
        return Ok(kept);
    }
    if let Some(spot) = spots.get(place - 1) {
        kept.push(*spot)?;
    }
    Ok(kept)
}

/// The same of what the axis and the test select from a node. Where no text stands in place of others the walk goes no further than there.
pub(crate) fn reached_placed(
    alloc: Global,
    forest: &Forest,
    spot: Spot,
    axis: Axis,
    test: &Test,
    number: Num,
    decimals: Decimals,
) -> Result<Vec<Spot>, AllocError>
    requires { is_spot forest.now.forest.nodes spot ≡ true }
    ensures value { IfOk result (λ kept. Keeps decimals number (reached axis test.now (shaped forest.now.forest.nodes) (number_at spot)) (numbers_at kept.items)) }
    ensures spots { IfOk result (λ kept. AreSpots forest.now.forest.nodes kept.items) }
{
    match spot {
        Spot::Node(node) if !goes_to_texts(forest, node, axis, test) => {
            plainly_placed(alloc, forest, node, axis, test, number, decimals)
        }
        _ => {
            let spots = reached(alloc, forest, spot, axis, test)?;
            placed(alloc, &spots, number, decimals)
        }
    }
}

/// What is the same as in the forest.
fn plainly_placed(
    alloc: Global,
    forest: &Forest,
    node: NodeId,
    axis: Axis,
    test: &Test,
    number: Num,
    decimals: Decimals,
) -> Result<Vec<Spot>, AllocError>
    requires spot { is_spot forest.now.forest.nodes (Spot.Node node) ≡ true }
    requires plain { (is_kind test.now && has_texts forest.now.forest.nodes node.number axis) ≡ false }
    ensures value { IfOk result (λ kept. Keeps decimals number (reached axis test.now (shaped forest.now.forest.nodes) node.number) (numbers_at kept.items)) }
    ensures spots { IfOk result (λ kept. AreSpots forest.now.forest.nodes kept.items) }
{
    is_sound(forest);
    let nodes = xf_eval::reached_placed(alloc, forest, node, axis, test, number, decimals)?;
    owned(alloc, &nodes)
}
