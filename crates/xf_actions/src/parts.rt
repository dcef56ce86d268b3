//! The parts of an action, by the number of its element.

ghost use Rattle.std.specs.Prelude.{◌≡◌, is_some, option_map};
ghost use Rattle.std.specs.Option.{option_copied};
ghost use Rattle.xf_def_machine.specs.Tables.{act_of, role_of};
ghost use Rattle.xf_def_machine.specs.Acting.{act_at, act_in};
ghost use Rattle.xf_actions.specs.Fault.{means};
ghost use Rattle.xf_actions.specs.Performs.{Reads};
ghost use Rattle.xf_actions.specs.Seen.{fired_of, acting_of};
ghost use Rattle.xf_actions.specs.Parts.{action_at, work_in, condition_in, repetition_in, is_block as blocks, holds};

use crate::acting::Acting;
use crate::fault::EventFault;
use crate::fired::Fired;
use crate::world::World;
use xf_def_syntax::{Action, Form, Kind, Work};

fn action_in(kind: &Kind) -> Option<&Action>
    ensures { option_map act_of (option_copied result) ≡ act_in (role_of kind.now) }
{
    match kind {
        Kind::Action(action) => Some(action),
        Kind::Host | Kind::Model(_) | Kind::Instance(_) | Kind::Bind(_) | Kind::Submission(_) =>
            None,
        Kind::Control(_, _) => None,
        Kind::Item
        | Kind::Itemset
        | Kind::Choices
        | Kind::Label
        | Kind::Value(_)
        | Kind::Output(_) => None,
    }
}

/// The action that is this element.
pub fn action_of(form: &Form, element: u32) -> Option<&Action>
    ensures { option_map act_of (option_copied result) ≡ action_at form.now element }
{
    match form.elements.get(element as usize) {
        Some(found) => action_in(&found.kind),
        None => None,
    }
}

pub fn is_action<W: World>(world: &W, element: u32) -> bool
    ensures { result ≡ is_some (act_at (W.state world.now) element) }
{
    action_of(world.form(), element).is_some()
}

pub fn is_block<W: World>(world: &W, element: u32) -> bool
    ensures { result ≡ blocks (work_in (act_at (W.state world.now) element)) }
{
    match action_of(world.form(), element) {
        Some(action) => matches!(&action.work, Work::Action),
        None => true,
    }
}

pub fn is_repeated<W: World>(world: &W, element: u32) -> bool
    ensures { result ≡ is_some (repetition_in (act_at (W.state world.now) element)) }
{
    match action_of(world.form(), element) {
        Some(action) => action.repetition.is_some(),
        None => false,
    }
}

#[inline(never)]
pub fn holds_condition<W: World>(
    world: &W,
    fired: &Fired,
    acting: &Acting,
) -> Result<bool, EventFault>
    ensures { Reads means (λ b. b) (W.state world.now) result (holds W.profile (acting_of fired.now acting.now) (condition_in (act_at (W.state world.now) acting.now.element)) (W.state world.now)) }
{
    match action_of(world.form(), acting.element) {
        Some(action) => match &action.condition {
            Some(test) => world.truth(fired, acting, test),
            None => Ok(true),
        },
        None => Ok(true),
    }
}

#[inline(never)]
pub fn holds_repetition<W: World>(
    world: &W,
    fired: &Fired,
    acting: &Acting,
) -> Result<bool, EventFault>
    ensures { Reads means (λ b. b) (W.state world.now) result (holds W.profile (acting_of fired.now acting.now) (repetition_in (act_at (W.state world.now) acting.now.element)) (W.state world.now)) }
{
    match action_of(world.form(), acting.element) {
        Some(action) => match &action.repetition {
            Some(test) => world.truth(fired, acting, test),
            None => Ok(true),
        },
        None => Ok(true),
    }
}
