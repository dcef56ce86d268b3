//! What expressions are evaluated with.

ghost use Rattle.std.specs.Prelude.{None, Some};
ghost use Rattle.xf_actions.specs.Seen.{told_of};
ghost use Rattle.xf_def_form.specs.Formed.{profile};
ghost use Rattle.xf_submit.specs.Steps.{Shows};
ghost use Rattle.xf_engine_world.specs.Seen.{IsOver};
ghost use Rattle.xf_engine_world.specs.State.{state_of};

use crate::form_world::FormWorld;
use xf_actions::Fired;
use xf_eval_context::Over;

/// What expressions are evaluated with while an event is handled.
pub(crate) fn over_event<'a>(world: &'a FormWorld, fired: &'a Fired) -> Over<'a>
    ensures { IsOver result (state_of world.now) (Some (told_of fired.now.properties)) }
{
    let loaded = world.work.loaded();
    Over {
        alloc: world.alloc,
        form: &loaded.form,
        prefixes: &loaded.prefixes,
        forest: world.work.forest(),
        indexes: Some(world.work.indexes()),
        told: Some(fired.properties.as_slice()),
    }
}

/// What they are evaluated with outside an event.
pub(crate) fn over_quiet(world: &FormWorld) -> Over<'_>
    ensures around { IsOver result (state_of world.now) None }
    ensures shows { Shows profile result (state_of world.now) }
{
    let loaded = world.work.loaded();
    Over {
        alloc: world.alloc,
        form: &loaded.form,
        prefixes: &loaded.prefixes,
        forest: world.work.forest(),
        indexes: Some(world.work.indexes()),
        told: None,
    }
}
