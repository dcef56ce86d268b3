//! Elements by their numbers.

ghost use Rattle.std.specs.Prelude.{◌≡◌, get_or, Ok};
ghost use Rattle.xf_def_machine.specs.Choose.{switch_number as number_of_switch};
ghost use Rattle.xf_def_machine.specs.Construct.{instances_of};
ghost use Rattle.xf_def_machine.specs.Events.{model_element as element_of_model, submission_element as element_of_submission};
ghost use Rattle.xf_def_machine.specs.Surround.{interface};
ghost use Rattle.xf_def_ui.specs.Cases.{cases_of, place_of_case as case_place};
ghost use Rattle.xf_def_ui.specs.Elements.{element_at};
ghost use Rattle.xf_actions.specs.Performs.{Reads};
ghost use Rattle.xf_actions.specs.Seen.{IsProgram};
ghost use Rattle.xf_actions.specs.Fault.{means};
ghost use Rattle.xf_engine_world.specs.State.{state_of};

use crate::form_world::FormWorld;
use xf_actions::EventFault;
use xf_def_syntax::{ElementList, Form};
use xf_events as events;
use xf_form_elements::parent_of;
use xf_name::Word;

pub(crate) fn form(world: &FormWorld) -> &Form
    ensures { IsProgram result.now (state_of world.now).form }
{
    world.work.form()
}

pub(crate) fn parent(world: &FormWorld, element: u32) -> Option<u32>
    ensures { result ≡ (element_at (interface (state_of world.now)) element).parent }
{
    parent_of(world.work.form(), element)
}

pub(crate) fn id(world: &FormWorld, element: u32) -> Result<Word, EventFault>
    ensures { Reads means (λ w. w) (state_of world.now) result (Ok (element_at (interface (state_of world.now)) element).id) }
{
    match Word::from_str(world.alloc, events::id_of(world.work.form(), element)) {
        Ok(id) => Ok(id),
        Err(_) => Err(EventFault::Memory),
    }
}

/// The element of the model of this number.
pub(crate) fn model_element(world: &FormWorld, model: u32) -> u32
    ensures { result ≡ element_of_model (state_of world.now) model }
{
    events::model_element(world.work.form(), model)
}

/// The element of the submission of this number.
pub(crate) fn submission_element(world: &FormWorld, submission: u32) -> u32
    ensures { result ≡ element_of_submission (state_of world.now) submission }
{
    events::submission_element(world.work.form(), submission)
}

/// The element of the repeat of this number.
pub(crate) fn repeat_element(world: &FormWorld, repeat: u32) -> u32
    ensures { result ≡ get_or (interface (state_of world.now)).repeats repeat 0 }
{
    events::repeat_element(world.work.form(), repeat)
}

/// The number of the switch that is this element.
pub(crate) fn switch_number(world: &FormWorld, element: u32) -> u32
    ensures { result ≡ number_of_switch (element_at (interface (state_of world.now)) element).sort }
{
    events::switch_number(world.work.form(), element)
}

/// The place of a case among those of an element, from 0.
pub(crate) fn place_of_case(world: &FormWorld, element: u32, case: u32) -> usize
    ensures { result ≡ case_place (interface (state_of world.now)) element case }
{
    xf_form_elements::switch::place_of_case(world.work.form(), element, case)
}

/// The case at a place of the switch of this number.
pub(crate) fn case_at(world: &FormWorld, switch: u32, place: usize) -> u32
    ensures { result ≡ get_or (cases_of (interface (state_of world.now)) (get_or (interface (state_of world.now)).switches switch 0)) place 0 }
{
    xf_form_elements::switch::case_at(world.work.form(), switch, place)
}

/// The instances of a model.
pub(crate) fn instances(world: &FormWorld, model: u32) -> Result<ElementList, EventFault>
    ensures { Reads means (λ places. places) (state_of world.now) result (Ok (instances_of (state_of world.now) model)) }
{
    match events::instances_at(world.alloc, world.work.form(), model) {
        Ok(all) => Ok(all),
        Err(_) => Err(EventFault::Memory),
    }
}
