//! Rows and cases that are chosen (XForms 1.1, sections 9.2, 9.3.1, 10.5 and 10.6).

ghost use Rattle.std.specs.Prelude.{◌≡◌, get_or, Ok};
ghost use Rattle.xf_def_machine.specs.Choose.{named_copy as copy_named, set_index as index_set};
ghost use Rattle.xf_def_machine.specs.Primitives.{set_case as case_set};
ghost use Rattle.xf_def_machine.specs.Update as update;
ghost use Rattle.xf_actions.specs.Performs.{Reads, Runs};
ghost use Rattle.xf_def_form.specs.Formed.{profile};
ghost use Rattle.xf_actions.specs.Fault.{means};
ghost use Rattle.xf_engine_world.specs.State.{kept_of, state_of};

use crate::fault::as_event;
use crate::form_world::FormWorld;
use xf_actions::EventFault;
use xf_def_forest::NodeList;
use xf_repeat::indexed_rows;

// ---- rows

/// The rows of the copy that an id names: the indexed ones, none where an index is 0.
pub(crate) fn named_copy(world: &FormWorld, element: u32) -> Result<Option<NodeList>, EventFault>
    ensures { Reads means (λ rows. rows) (state_of world.now) result (Ok (copy_named (state_of world.now) element)) }
{
    let work = &world.work;
    match indexed_rows(world.alloc, work.form(), work.indexes(), element) {
        Ok(rows) => Ok(rows),
        Err(_) => Err(EventFault::Memory),
    }
}

/// Brings the indexes up to date where these nodes were just inserted.
pub(crate) fn reindex(world: &mut FormWorld, added: &NodeList) -> Result<(), EventFault>
    ensures done { Runs means (state_of world.new) result (update.reindex profile added.now (state_of world.old)) }
    ensures kept { kept_of world.new ≡ kept_of world.old }
    ensures form { (state_of world.new).form ≡ (state_of world.old).form }
    ensures calls { (state_of world.new).calls ≡ (state_of world.old).calls }
{
    world.work.same_form();
    let done = world.work.reindex(added);
    world.work.same_form();
    as_event(done)
}

/// The index of a repeat is set.
pub(crate) fn set_index(
    world: &mut FormWorld,
    model: u32,
    repeat: u32,
    index: u64,
) -> Result<(), EventFault>
    ensures done { Runs means (state_of world.new) result (index_set profile model repeat index (state_of world.old)) }
    ensures kept { kept_of world.new ≡ kept_of world.old }
    ensures form { (state_of world.new).form ≡ (state_of world.old).form }
    ensures calls { (state_of world.new).calls ≡ (state_of world.old).calls }
{
    world.work.same_form();
    let done = world.work.set_index(model, repeat, index);
    world.work.same_form();
    as_event(done)
}

// ---- cases

/// The place of the case that is selected in the switch of this number.
pub(crate) fn selected(world: &FormWorld, switch: u32) -> usize
    ensures { result ≡ get_or (state_of world.now).cases switch 0 }
{
    match world.work.cases().get(switch as usize) {
        Some(place) => *place,
        None => 0,
    }
}

/// A case is selected.
pub(crate) fn set_case(world: &mut FormWorld, switch: u32, place: usize)
    ensures done { state_of world.new ≡ case_set switch place (state_of world.old) }
    ensures kept { kept_of world.new ≡ kept_of world.old }
{
    world.work.set_case(switch, place);
}
