//! In which instance a node stands.

ghost use Rattle.std.specs.Prelude.{◌≡◌};
ghost use Rattle.xf_def_machine.specs.Surround.{instance_holding as holding_instance};
ghost use Rattle.xf_engine_world.specs.State.{state_of};

use crate::form_world::FormWorld;
use xf_def_forest::NodeId;
use xf_eval_context::is_live;
use xf_tree_paths::instance_holding as instance_among;

/// The instance in which a node stands: none for a node of a detached tree.
pub(crate) fn instance_holding(world: &FormWorld, node: NodeId) -> Option<usize>
    ensures { result ≡ holding_instance (state_of world.now) node.number }
{
    world.work.few_roots();
    let forest = world.work.forest();
    if !is_live(forest, node) {
        return None;
    }
    match instance_among(forest, u32::MAX, node) {
        Some(place) => Some(place as usize),
        None => None,
    }
}
