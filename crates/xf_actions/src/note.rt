//! The actions that add a note (XForms 1.1, sections 10.7, 10.15 and 10.16).

ghost use Rattle.std.specs.Prelude.{◌≡◌};
ghost use Rattle.xf_def_machine.specs.Acting.{act_at, binding_of};
ghost use Rattle.xf_def_machine.specs.Telling.{message as messages, load as loads, focus as focuses, loaded_text as text_loaded};
ghost use Rattle.xf_actions.specs.Fault.{means};
ghost use Rattle.xf_actions.specs.Performs.{Runs, Reads};
ghost use Rattle.xf_actions.specs.Seen.{acting_of};
ghost use Rattle.xf_actions.specs.Parts.{resource_in};

use crate::acting::Acting;
use crate::fault::EventFault;
use crate::fired::Fired;
use crate::parts::action_of;
use crate::world::World;
use xf_def_machine::Note;
use xf_def_syntax::Work;
use xf_name::Word;

/// A note with the text of the message.
pub fn message<W: World>(world: &mut W, fired: &Fired, acting: &Acting) -> Result<(), EventFault>
    ensures done { Runs means (W.state world.new) result (messages W.profile (acting_of fired.now acting.now) (W.state world.old)) }
    ensures kept { W.kept world.new ≡ W.kept world.old }
    ensures form { (W.state world.new).form ≡ (W.state world.old).form }
    ensures calls { (W.state world.new).calls ≡ (W.state world.old).calls }
{
    let text = world.message(fired, acting)?;
    world.add_note(Note::Message(text))
}

/// A note with the text of what is bound, else with the resource.
pub fn load<W: World>(world: &mut W, fired: &Fired, acting: &Acting) -> Result<(), EventFault>
    ensures done { Runs means (W.state world.new) result (loads W.profile (acting_of fired.now acting.now) (resource_in (act_at (W.state world.old) acting.now.element)) (W.state world.old)) }
    ensures kept { W.kept world.new ≡ W.kept world.old }
    ensures form { (W.state world.new).form ≡ (W.state world.old).form }
    ensures calls { (W.state world.new).calls ≡ (W.state world.old).calls }
{
    let text = loaded_text(world, fired, acting)?;
    world.add_note(Note::Load(text))
}

fn loaded_text<W: World>(world: &W, fired: &Fired, acting: &Acting) -> Result<Word, EventFault>
    ensures { Reads means (λ w. w) (W.state world.now) result (text_loaded W.profile (acting_of fired.now acting.now) (resource_in (act_at (W.state world.now) acting.now.element)) (W.state world.now) (binding_of (acting_of fired.now acting.now) (W.state world.now))) }
{
    match action_of(world.form(), acting.element) {
        Some(action) => match &action.work {
            Work::Load(resource) => world.loaded(fired, acting, resource.as_str()),
            _ => world.loaded(fired, acting, ""),
        },
        None => world.loaded(fired, acting, ""),
    }
}

/// A note with the id of the control. Has no effect where the index of a repeat around it is 0.
pub fn set_focus<W: World>(world: &mut W, control: u32) -> Result<(), EventFault>
    ensures done { Runs means (W.state world.new) result (focuses W.profile control (W.state world.old)) }
    ensures kept { W.kept world.new ≡ W.kept world.old }
    ensures form { (W.state world.new).form ≡ (W.state world.old).form }
    ensures calls { (W.state world.new).calls ≡ (W.state world.old).calls }
{
    match world.named_copy(control)? {
        None => Ok(()),
        Some(_rows) => {
            let id = world.id(control)?;
            world.add_note(Note::Focus(id))
        }
    }
}
