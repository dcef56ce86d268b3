//! Rounds of an update (XForms 1.1, sections 4.3 and 4.6): the behaviours of each model that are due, then the refresh of the whole form.

ghost use Rattle.std.specs.Prelude.{◌≡◌, map};
ghost use Rattle.xf_def_machine.specs.Update.{due_rebuild as rebuilds, due_recalculation as recalculates, due_revalidation as revalidates};
ghost use Rattle.xf_actions.specs.Fault.{means};
ghost use Rattle.xf_actions.specs.Performs.{Runs, Makes};
ghost use Rattle.xf_actions.specs.Seen.{fired_of};
ghost use Rattle.xf_actions.specs.Told.{all_behaved, round_begun};

use crate::fault::EventFault;
use crate::fired::FiredList;
use crate::world::{Flag, World};
use xf_base::Items;

/// Spends the turn of a round and does what is due. It gives the events that are told after it.
#[inline(never)]
pub fn begin_round<W: World>(world: &mut W) -> Result<FiredList, EventFault>
    ensures done { Makes means (map fired_of) (W.state world.new) result (round_begun W.profile (W.state world.old)) }
    ensures kept { W.kept world.new ≡ W.kept world.old }
    ensures form { (W.state world.new).form ≡ (W.state world.old).form }
    ensures calls { (W.state world.new).calls ≡ (W.state world.old).calls }
{
    world.spend()?;
    behave_all(world)?;
    if world.is_refresh_due() {
        world.refresh(None)
    } else {
        Ok(Items::new(world.alloc()))
    }
}

/// The models one after the other.
fn behave_all<W: World>(world: &mut W) -> Result<(), EventFault>
    ensures done { Runs means (W.state world.new) result (all_behaved W.profile (W.state world.old)) }
    ensures kept { W.kept world.new ≡ W.kept world.old }
    ensures form { (W.state world.new).form ≡ (W.state world.old).form }
    ensures calls { (W.state world.new).calls ≡ (W.state world.old).calls }
{
    let count = world.model_count();
    for model in 0..count {
        revalidate_due(world, model)?;
    }
    Ok(())
}

/// What is due of a model, as far as the revalidation.
pub fn revalidate_due<W: World>(world: &mut W, model: u32) -> Result<(), EventFault>
    ensures done { Runs means (W.state world.new) result (revalidates W.profile model (W.state world.old)) }
    ensures kept { W.kept world.new ≡ W.kept world.old }
    ensures form { (W.state world.new).form ≡ (W.state world.old).form }
    ensures calls { (W.state world.new).calls ≡ (W.state world.old).calls }
{
    recalculate_due(world, model)?;
    if world.is_flagged(model, Flag::Revalidate) {
        world.revalidate(model)
    } else {
        Ok(())
    }
}

pub fn recalculate_due<W: World>(world: &mut W, model: u32) -> Result<(), EventFault>
    ensures done { Runs means (W.state world.new) result (recalculates W.profile model (W.state world.old)) }
    ensures kept { W.kept world.new ≡ W.kept world.old }
    ensures form { (W.state world.new).form ≡ (W.state world.old).form }
    ensures calls { (W.state world.new).calls ≡ (W.state world.old).calls }
{
    rebuild_due(world, model)?;
    if world.is_flagged(model, Flag::Recalculate) {
        world.recalculate(model)
    } else {
        Ok(())
    }
}

pub fn rebuild_due<W: World>(world: &mut W, model: u32) -> Result<(), EventFault>
    ensures done { Runs means (W.state world.new) result (rebuilds W.profile model (W.state world.old)) }
    ensures kept { W.kept world.new ≡ W.kept world.old }
    ensures form { (W.state world.new).form ≡ (W.state world.old).form }
    ensures calls { (W.state world.new).calls ≡ (W.state world.old).calls }
{
    if world.is_flagged(model, Flag::Rebuild) {
        world.rebuild(model)
    } else {
        Ok(())
    }
}
