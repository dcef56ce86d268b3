//! The reset of a model (XForms 1.1, section 4.3.7).

ghost use Rattle.std.specs.Prelude.{◌≡◌};
ghost use Rattle.xf_def_machine.specs.Flow.{in_turn};
ghost use Rattle.xf_def_machine.specs.Construct.{construct, put_back, reset as resets};
ghost use Rattle.xf_actions.specs.Fault.{means};
ghost use Rattle.xf_actions.specs.Performs.{Runs};

use crate::fault::EventFault;
use crate::world::World;
use xf_def_forest::NodeList;

/// The data of the model as construction left them; then the indexes are brought up to date.
pub fn reset<W: World>(world: &mut W, model: u32) -> Result<(), EventFault>
    ensures done { Runs means (W.state world.new) result (resets W.profile model (W.state world.old)) }
    ensures kept { W.kept world.new ≡ W.kept world.old }
    ensures form { (W.state world.new).form ≡ (W.state world.old).form }
    ensures calls { (W.state world.new).calls ≡ (W.state world.old).calls }
{
    let instances = world.instances(model)?;
    put_all_back(world, instances.as_slice())?;
    let none = NodeList::new(world.alloc());
    world.reindex(&none)
}

fn put_all_back<W: World>(world: &mut W, instances: &[u32]) -> Result<(), EventFault>
    ensures done { Runs means (W.state world.new) result (in_turn (put_back W.profile (construct W.profile (W.state world.old).form)) instances.now (W.state world.old)) }
    ensures kept { W.kept world.new ≡ W.kept world.old }
    ensures form { (W.state world.new).form ≡ (W.state world.old).form }
    ensures calls { (W.state world.new).calls ≡ (W.state world.old).calls }
{
    for instance in instances {
        world.put_back(*instance)?;
    }
    Ok(())
}
