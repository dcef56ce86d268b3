//! What is due of a model (XForms 1.1, sections 4.3.1 to 4.3.3), as far as the revalidation.

ghost use Rattle.std.specs.Prelude.{◌≡◌};
ghost use Rattle.xf_def_machine.specs.Update.{due_rebuild as rebuilds, due_recalculation as recalculates, due_revalidation as revalidates};
ghost use Rattle.xf_actions.specs.Performs.{Runs};
ghost use Rattle.xf_def_form.specs.Formed.{profile};
ghost use Rattle.xf_actions.specs.Fault.{means};
ghost use Rattle.xf_engine_world.specs.State.{kept_of, state_of};

use crate::behaviours::{is_flagged, rebuild, recalculate, revalidate};
use crate::form_world::FormWorld;
use xf_actions::{EventFault, Flag};

/// What is due of a model is done, as far as the revalidation.
pub(crate) fn revalidate_due(world: &mut FormWorld, model: u32) -> Result<(), EventFault>
    ensures done { Runs means (state_of world.new) result (revalidates profile model (state_of world.old)) }
    ensures kept { kept_of world.new ≡ kept_of world.old }
    ensures form { (state_of world.new).form ≡ (state_of world.old).form }
    ensures calls { (state_of world.new).calls ≡ (state_of world.old).calls }
{
    recalculate_due(world, model)?;
    if is_flagged(world, model, Flag::Revalidate) {
        revalidate(world, model)
    } else {
        Ok(())
    }
}

fn recalculate_due(world: &mut FormWorld, model: u32) -> Result<(), EventFault>
    ensures done { Runs means (state_of world.new) result (recalculates profile model (state_of world.old)) }
    ensures kept { kept_of world.new ≡ kept_of world.old }
    ensures form { (state_of world.new).form ≡ (state_of world.old).form }
    ensures calls { (state_of world.new).calls ≡ (state_of world.old).calls }
{
    rebuild_due(world, model)?;
    if is_flagged(world, model, Flag::Recalculate) {
        recalculate(world, model)
    } else {
        Ok(())
    }
}

fn rebuild_due(world: &mut FormWorld, model: u32) -> Result<(), EventFault>
    ensures done { Runs means (state_of world.new) result (rebuilds profile model (state_of world.old)) }
    ensures kept { kept_of world.new ≡ kept_of world.old }
    ensures form { (state_of world.new).form ≡ (state_of world.old).form }
    ensures calls { (state_of world.new).calls ≡ (state_of world.old).calls }
{
    if is_flagged(world, model, Flag::Rebuild) {
        rebuild(world, model)
    } else {
        Ok(())
    }
}
