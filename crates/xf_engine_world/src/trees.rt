//! Trees that come and go (XForms 1.1, sections 10.3, 10.4 and 4.3.7): copies, trees that are attached and detached, and the data that a reset puts
//! back.

ghost use Rattle.std.specs.Prelude.{◌≡◌, Ok};
ghost use Rattle.xf_def_machine.specs.Construct.{construct, put_back as instance_put_back};
ghost use Rattle.xf_def_machine.specs.Primitives.{attach as attached, copy as copied, detach as detached};
ghost use Rattle.xf_actions.specs.Performs.{Makes, Runs};
ghost use Rattle.xf_def_form.specs.Formed.{profile};
ghost use Rattle.xf_actions.specs.Fault.{means};
ghost use Rattle.xf_engine_world.specs.State.{kept_of, state_of};

use crate::fault::as_event;
use crate::form_world::FormWorld;
use xf_actions::EventFault;
use xf_def_forest::NodeId;

/// A copy of a tree comes as a detached one.
pub(crate) fn copy(world: &mut FormWorld, node: NodeId) -> Result<NodeId, EventFault>
    ensures done { Makes means (λ n. n.number) (state_of world.new) result (copied profile node.number (state_of world.old)) }
    ensures kept { kept_of world.new ≡ kept_of world.old }
    ensures form { (state_of world.new).form ≡ (state_of world.old).form }
    ensures calls { (state_of world.new).calls ≡ (state_of world.old).calls }
{
    world.work.same_form();
    let done = world.work.copy(node);
    world.work.same_form();
    as_event(done)
}

/// A detached tree comes below a parent, behind so many children.
pub(crate) fn attach(
    world: &mut FormWorld,
    node: NodeId,
    parent: NodeId,
    place: usize,
) -> Result<(), EventFault>
    ensures done { Runs means (state_of world.new) result (attached profile node.number parent.number place (state_of world.old)) }
    ensures kept { kept_of world.new ≡ kept_of world.old }
    ensures form { (state_of world.new).form ≡ (state_of world.old).form }
    ensures calls { (state_of world.new).calls ≡ (state_of world.old).calls }
{
    let Ok(place) = u32::try_from(place) else {
        // No forest has so many nodes.
        return Err(EventFault::Memory);
    };
    world.work.same_form();
    let done = world.work.attach(node, parent, place);
    world.work.same_form();
    as_event(done)
}

/// A tree is cut off its parent.
pub(crate) fn detach(world: &mut FormWorld, node: NodeId) -> Result<(), EventFault>
    ensures done { Runs means (state_of world.new) result (Ok (detached node.number (state_of world.old))) }
    ensures kept { kept_of world.new ≡ kept_of world.old }
    ensures form { (state_of world.new).form ≡ (state_of world.old).form }
    ensures calls { (state_of world.new).calls ≡ (state_of world.old).calls }
{
    world.work.same_form();
    let done = world.work.detach(node);
    world.work.same_form();
    as_event(done)
}

/// The document element of an instance as construction left it, in place of the one that stands.
pub(crate) fn put_back(world: &mut FormWorld, instance: u32) -> Result<(), EventFault>
    ensures done { Runs means (state_of world.new) result (instance_put_back profile (construct profile (state_of world.old).form) instance (state_of world.old)) }
    ensures kept { kept_of world.new ≡ kept_of world.old }
    ensures form { (state_of world.new).form ≡ (state_of world.old).form }
    ensures calls { (state_of world.new).calls ≡ (state_of world.old).calls }
{
    world.work.same_form();
    let done = world.work.put_back(instance);
    world.work.same_form();
    as_event(done)
}
