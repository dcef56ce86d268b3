//! The work of actions (XForms 1.1, section 10).

ghost use Rattle.std.specs.Prelude.{◌≡◌, map};
ghost use Rattle.xf_def_machine.specs.Acting.{act_at};
ghost use Rattle.xf_def_machine.specs.SetValue.{set_value as value_set, set_open, value_asked};
ghost use Rattle.xf_actions.specs.Fault.{means};
ghost use Rattle.xf_actions.specs.Performs.{Runs, Makes, Reads};
ghost use Rattle.xf_actions.specs.Seen.{fired_of, acting_of};
ghost use Rattle.xf_actions.specs.Parts.{work_in, value_in};
ghost use Rattle.xf_actions.specs.Changed.{changed, doing_of};

use crate::acting::Acting;
use crate::choose::{set_index, toggle};
use crate::delete::delete;
use crate::fault::EventFault;
use crate::fired::{Fired, FiredList};
use crate::insert::insert;
use crate::note::{load, message, set_focus};
use crate::parts::action_of;
use crate::tell::told_events;
use crate::world::World;
use xf_base::Items;
use xf_def_forest::NodeId;
use xf_def_syntax::Work;
use xf_name::Word;

/// Which work an action has.
#[derive(Clone, Copy, Debug, PartialEq, Eq)]
pub enum Doing {
    Sets,
    Speaks,
    Loads,
    /// The repeat of this number.
    Indexes(u32),
    /// The case, or the control, that is this element.
    Toggles(u32),
    Focuses(u32),
    /// It only tells events.
    Tells,
    Inserts,
    Deletes,
    /// The actions in it act.
    Rests,
}

fn which<W: World>(world: &W, element: u32) -> Doing
    ensures { result ≡ doing_of (work_in (act_at (W.state world.now) element)) }
{
    match action_of(world.form(), element) {
        Some(action) => match &action.work {
            Work::SetValue(_) => Doing::Sets,
            Work::Message => Doing::Speaks,
            Work::Load(_) => Doing::Loads,
            Work::SetIndex(repeat, _) => Doing::Indexes(*repeat),
            Work::Toggle(case) => Doing::Toggles(*case),
            Work::SetFocus(control) => Doing::Focuses(*control),
            Work::Dispatch(_) | Work::Send(_) => Doing::Tells,
            Work::Reset | Work::Rebuild | Work::Recalculate => Doing::Tells,
            Work::Revalidate | Work::Refresh => Doing::Tells,
            Work::Insert(_) => Doing::Inserts,
            Work::Delete(_) => Doing::Deletes,
            Work::Action => Doing::Rests,
        },
        None => Doing::Rests,
    }
}

/// What the work of an action changes. It gives the events that are told after it.
#[inline(never)]
pub fn change<W: World>(
    world: &mut W,
    fired: &Fired,
    acting: &Acting,
) -> Result<FiredList, EventFault>
    ensures done { Makes means (map fired_of) (W.state world.new) result (changed W.profile (acting_of fired.now acting.now) (work_in (act_at (W.state world.old) acting.now.element)) (W.state world.old)) }
    ensures kept { W.kept world.new ≡ W.kept world.old }
    ensures form { (W.state world.new).form ≡ (W.state world.old).form }
    ensures calls { (W.state world.new).calls ≡ (W.state world.old).calls }
{
    match which(world, acting.element) {
        Doing::Sets => {
            set_value(world, fired, acting)?;
            Ok(Items::new(world.alloc()))
        }
        Doing::Speaks => {
            message(world, fired, acting)?;
            Ok(Items::new(world.alloc()))
        }
        Doing::Loads => {
            load(world, fired, acting)?;
            Ok(Items::new(world.alloc()))
        }
        Doing::Indexes(repeat) => {
            set_index(world, fired, acting, repeat)?;
            Ok(Items::new(world.alloc()))
        }
        Doing::Focuses(control) => {
            set_focus(world, control)?;
            Ok(Items::new(world.alloc()))
        }
        Doing::Toggles(case) => toggle(world, acting, case),
        Doing::Tells => told_events(world, acting),
        Doing::Inserts => insert(world, fired, acting),
        Doing::Deletes => delete(world, fired, acting),
        Doing::Rests => Ok(Items::new(world.alloc())),
    }
}

/// Has no effect where nothing is bound or the node is readonly.
fn set_value<W: World>(world: &mut W, fired: &Fired, acting: &Acting) -> Result<(), EventFault>
    ensures done { Runs means (W.state world.new) result (value_set W.profile (acting_of fired.now acting.now) (value_in (act_at (W.state world.old) acting.now.element)) (W.state world.old)) }
    ensures kept { W.kept world.new ≡ W.kept world.old }
    ensures form { (W.state world.new).form ≡ (W.state world.old).form }
    ensures calls { (W.state world.new).calls ≡ (W.state world.old).calls }
{
    match world.bound(fired, acting)? {
        None => Ok(()),
        Some(node) => {
            if world.is_readonly(node) {
                return Ok(());
            }
            set_node(world, fired, acting, node)
        }
    }
}

fn set_node<W: World>(
    world: &mut W,
    fired: &Fired,
    acting: &Acting,
    node: NodeId,
) -> Result<(), EventFault>
    ensures done { Runs means (W.state world.new) result (set_open W.profile (acting_of fired.now acting.now) (value_in (act_at (W.state world.old) acting.now.element)) node.number (W.state world.old)) }
    ensures kept { W.kept world.new ≡ W.kept world.old }
    ensures form { (W.state world.new).form ≡ (W.state world.old).form }
    ensures calls { (W.state world.new).calls ≡ (W.state world.old).calls }
{
    world.may_set(node)?;
    let text = value_text(world, fired, acting, node)?;
    world.set_text(node, text.as_str())
}

fn value_text<W: World>(
    world: &W,
    fired: &Fired,
    acting: &Acting,
    node: NodeId,
) -> Result<Word, EventFault>
    ensures { Reads means (λ w. w) (W.state world.now) result (value_asked W.profile (acting_of fired.now acting.now) (W.state world.now) node.number (value_in (act_at (W.state world.now) acting.now.element))) }
{
    match action_of(world.form(), acting.element) {
        Some(action) => match &action.work {
            Work::SetValue(Some(expr)) => world.text_at(fired, acting, node, expr),
            _ => world.words(acting.element),
        },
        None => world.words(acting.element),
    }
}
