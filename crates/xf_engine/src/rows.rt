//! The rows that events from outside name by numbers.

ghost use Rattle.std.specs.Prelude.{◌≡◌, zip};
ghost use Rattle.xf_def_machine.specs.Choose.{set_index as index_set};
ghost use Rattle.xf_def_machine.specs.Flow.{in_turn};
ghost use Rattle.xf_def_machine.specs.Targets.{take_rows as rows_taken};
ghost use Rattle.xf_def_form.specs.Formed.{profile};
ghost use Rattle.xf_actions.specs.Performs.{Runs};
ghost use Rattle.xf_actions.specs.Fault.{means};
ghost use Rattle.xf_engine.specs.Rows.{row_taken};

use xf_actions::{EventFault, World};
use xf_engine_machine::Machine;
use xf_form_elements::{model_at, repeats_around};

/// The rows that numbers name become the indexed ones: each as by setindex, the outermost first.
pub(crate) fn take_rows<W: Machine>(
    world: &mut W,
    element: u32,
    numbers: &[u64],
) -> Result<(), EventFault>
    ensures done { Runs means (W.state world.new) result (rows_taken profile element numbers.now (W.state world.old)) }
    ensures kept { W.kept world.new ≡ W.kept world.old }
    ensures calls { (W.state world.new).calls ≡ (W.state world.old).calls }
{
    let repeats = repeats_around(world.alloc(), world.form(), element)?;
    take_each(world, repeats.as_slice(), numbers)
}

/// Each of these repeats takes its number.
fn take_each<W: Machine>(world: &mut W, repeats: &[u32], numbers: &[u64]) -> Result<(), EventFault>
    ensures done { Runs means (W.state world.new) result (in_turn (row_taken profile) (zip repeats.now numbers.now) (W.state world.old)) }
    ensures kept { W.kept world.new ≡ W.kept world.old }
    ensures calls { (W.state world.new).calls ≡ (W.state world.old).calls }
{
    if repeats.is_empty() {
        return Ok(());
    }
    if numbers.is_empty() {
        return Ok(());
    }
    let model = model_at(world.form(), repeats[0]);
    set_index(world, model, repeats[0], numbers[0])?;
    take_each(world, &repeats[1..], &numbers[1..])
}

/// The index of a repeat is set, which flags the refresh of the model.
pub(crate) fn set_index<W: Machine>(
    world: &mut W,
    model: u32,
    repeat: u32,
    index: u64,
) -> Result<(), EventFault>
    ensures done { Runs means (W.state world.new) result (index_set profile model repeat index (W.state world.old)) }
    ensures kept { W.kept world.new ≡ W.kept world.old }
    ensures calls { (W.state world.new).calls ≡ (W.state world.old).calls }
{
    world.set_index(model, repeat, index)
}
