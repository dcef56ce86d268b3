//! What is tried of the copies of controls that events from outside name by rows.

ghost use Rattle.std.specs.Prelude.{◌≡◌};
ghost use Rattle.xf_controls.specs.Seen.{seen_copy};
ghost use Rattle.xf_def_machine.specs.Step.{is_row};
ghost use Rattle.xf_def_machine.specs.Surround.{interface};
ghost use Rattle.xf_def_machine.specs.Targets.{copy_named, takes_text};
ghost use Rattle.xf_def_ui.specs.Elements.{element_at};
ghost use Rattle.xf_def_ui.specs.Interface.{sort_of};
ghost use Rattle.xf_def_form.specs.Formed.{profile};
ghost use Rattle.xf_actions.specs.Fault.{means};
ghost use Rattle.xf_actions.specs.Performs.{Reads};
ghost use Rattle.xf_engine_world.specs.State.{state_of};

use crate::form_world::FormWorld;
use crate::surrounding::over_quiet;
use xf_actions::{EventFault, World};
use xf_controls::ControlCopy;
use xf_def_forest::NodeList;
use xf_def_machine::Refusal;
use xf_def_syntax::{Control, Kind};
use xf_form_elements::element_in;
use xf_items::may_be_set;
use xf_repeat::named_rows;

/// The copy of an element in the rows that numbers name: the rows stand, and are neither too few nor too many.
pub(crate) fn copy_named<'a>(
    world: &'a FormWorld,
    element: u32,
    numbers: &[u64],
) -> Result<&'a ControlCopy, EventFault>
    ensures { Reads means (λ c. seen_copy c.now) (state_of world.now) result (copy_named profile (state_of world.now) element numbers.now) }
{
    let Some(rows) = named_rows(&over_quiet(world), element, numbers)? else {
        return Err(EventFault::Refused(Refusal::NoSuchTarget));
    };
    match world.work.control(element, rows.as_slice()) {
        Some(copy) => Ok(copy),
        None => Err(EventFault::Refused(Refusal::NoSuchTarget)),
    }
}

/// Whether the items of a select allow a text, or other texts are allowed.
pub(crate) fn takes_text(world: &FormWorld, element: u32, copy: &ControlCopy, text: &str) -> bool
    ensures { result ≡ takes_text (element_at (interface (state_of world.now)) element).sort (seen_copy copy.now) text.now }
{
    match element_in(world.form(), element) {
        Some(here) => is_allowed(&here.kind, copy, text),
        None => true,
    }
}

fn is_allowed(kind: &Kind, copy: &ControlCopy, text: &str) -> bool
    ensures { result ≡ takes_text (sort_of kind.now) (seen_copy copy.now) text.now }
{
    match kind {
        Kind::Control(_, Control::Select(is_free)) => {
            may_be_set(true, *is_free, copy.items.as_slice(), text)
        }
        Kind::Control(_, Control::SelectOne(is_free)) => {
            may_be_set(false, *is_free, copy.items.as_slice(), text)
        }
        _ => true,
    }
}

/// Whether a number is one of the rows.
pub(crate) fn is_row(rows: &NodeList, number: u64) -> bool
    ensures { result ≡ is_row rows.now number }
{
    number >= 1 && number <= rows.len() as u64
}
