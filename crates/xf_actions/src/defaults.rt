//! The default actions of events (XForms 1.1, section 4).

ghost use Rattle.std.specs.Prelude.{◌≡◌, map, None};
ghost use Rattle.xf_store.specs.Called.{Called};
ghost use Rattle.xf_def_machine.specs.Program.{role_at};
ghost use Rattle.xf_def_machine.specs.Tables.{role_of, role_of_control};
ghost use Rattle.xf_def_machine.specs.Default.{recalculate_now as recalculates_now, revalidate_now as revalidates_now};
ghost use Rattle.xf_actions.specs.Fault.{means};
ghost use Rattle.xf_actions.specs.Performs.{Runs, Makes, LeavesOver};
ghost use Rattle.xf_actions.specs.Seen.{fired_of, concluded_of};
ghost use Rattle.xf_actions.specs.Defaulted.{model_default, default_of, done_quietly, defaulted, refreshed_now};

use crate::fault::EventFault;
use crate::fired::{Concluded, Fired, FiredList};
use crate::reset::reset;
use crate::round::{rebuild_due, recalculate_due, revalidate_due};
use crate::tell::sent;
use crate::world::World;
use xf_base::Items;
use xf_def_syntax::{Control, Kind};
use xf_name::Word;
use xf_store::Store;

/// A default action that tells nothing: of the model of this number.
#[derive(Clone, Copy, Debug)]
pub enum QuietAction {
    Nothing,
    Rebuild(u32),
    Recalculate(u32),
    Revalidate(u32),
    Reset(u32),
}

/// Which default action an event has.
#[derive(Clone, Copy, Debug)]
pub enum DefaultAction {
    Quiet(QuietAction),
    /// The model of this number.
    Refresh(u32),
    /// The submission of this number is submitted, or is told to be.
    Submit(u32),
    Send(Option<u32>),
}

fn default_of_model(model: u32, name: &Word) -> DefaultAction
    ensures { result ≡ model_default model name.now }
{
    if name.is("xforms-rebuild") {
        return DefaultAction::Quiet(QuietAction::Rebuild(model));
    }
    if name.is("xforms-recalculate") {
        return DefaultAction::Quiet(QuietAction::Recalculate(model));
    }
    if name.is("xforms-revalidate") {
        return DefaultAction::Quiet(QuietAction::Revalidate(model));
    }
    if name.is("xforms-refresh") {
        return DefaultAction::Refresh(model);
    }
    if name.is("xforms-reset") {
        return DefaultAction::Quiet(QuietAction::Reset(model));
    }
    DefaultAction::Quiet(QuietAction::Nothing)
}

fn default_of_control(control: &Control, name: &Word) -> DefaultAction
    ensures { result ≡ default_of name.now (role_of_control control.now) }
{
    match control {
        Control::Submit(target) => {
            if name.is("DOMActivate") {
                return DefaultAction::Send(*target);
            }
            DefaultAction::Quiet(QuietAction::Nothing)
        }
        Control::Group | Control::Switch(_) | Control::Case(_) | Control::Repeat(_, _) =>
            DefaultAction::Quiet(QuietAction::Nothing),
        Control::Input | Control::Secret | Control::Textarea | Control::Output(_) =>
            DefaultAction::Quiet(QuietAction::Nothing),
        Control::Select(_) | Control::SelectOne(_) | Control::Trigger => DefaultAction::Quiet(
            QuietAction::Nothing,
        ),
    }
}

fn default_in(kind: &Kind, name: &Word) -> DefaultAction
    ensures { result ≡ default_of name.now (role_of kind.now) }
{
    match kind {
        Kind::Model(model) => default_of_model(*model, name),
        Kind::Submission(submission) => {
            if name.is("xforms-submit") {
                return DefaultAction::Submit(*submission);
            }
            DefaultAction::Quiet(QuietAction::Nothing)
        }
        Kind::Control(_, control) => default_of_control(control, name),
        Kind::Host | Kind::Instance(_) | Kind::Bind(_) | Kind::Action(_) => DefaultAction::Quiet(
            QuietAction::Nothing,
        ),
        Kind::Item
        | Kind::Itemset
        | Kind::Choices
        | Kind::Label
        | Kind::Value(_)
        | Kind::Output(_) => DefaultAction::Quiet(QuietAction::Nothing),
    }
}

fn which_default<W: World>(world: &W, fired: &Fired) -> DefaultAction
    ensures { result ≡ default_of fired.now.name (role_at (W.state world.now).form fired.now.target) }
{
    match world.form().elements.get(fired.target as usize) {
        Some(found) => default_in(&found.kind, &fired.name),
        None => DefaultAction::Quiet(QuietAction::Nothing),
    }
}

/// The default action of an event. It gives what is told after it.
#[inline(never)]
pub fn default_action<W: World, S: Store>(
    world: &mut W,
    fired: &Fired,
    store: &mut S,
) -> Result<Concluded, EventFault>
    ensures done { LeavesOver means (concluded_of (W.state world.old).form (W.state world.new)) (W.state world.new) result (λ answers. defaulted W.profile answers (fired_of fired.now) (W.state world.old)) }
    ensures store { Called (S.calls store.old, S.to_come store.old) (S.calls store.new, S.to_come store.new) (W.state world.old).calls (W.state world.new).calls }
    ensures kept { W.kept world.new ≡ W.kept world.old }
    ensures form { (W.state world.new).form ≡ (W.state world.old).form }
{
    match which_default(world, fired) {
        DefaultAction::Quiet(action) => {
            act_quietly(world, action)?;
            Ok(only(Items::new(world.alloc())))
        }
        DefaultAction::Refresh(model) => {
            let events = refresh_now(world, model)?;
            Ok(only(events))
        }
        DefaultAction::Send(target) => {
            let events = sent(world, target)?;
            Ok(only(events))
        }
        DefaultAction::Submit(submission) => world.submit(submission, store),
    }
}

fn only(events: FiredList) -> Concluded
    ensures events { result.events ≡ events }
    ensures ending { result.ending ≡ None }
{
    Concluded {
        events,
        ending: None,
    }
}

fn act_quietly<W: World>(world: &mut W, action: QuietAction) -> Result<(), EventFault>
    ensures done { Runs means (W.state world.new) result (done_quietly W.profile action (W.state world.old)) }
    ensures kept { W.kept world.new ≡ W.kept world.old }
    ensures form { (W.state world.new).form ≡ (W.state world.old).form }
    ensures calls { (W.state world.new).calls ≡ (W.state world.old).calls }
{
    match action {
        QuietAction::Nothing => Ok(()),
        QuietAction::Rebuild(model) => world.rebuild(model),
        QuietAction::Recalculate(model) => recalculate_now(world, model),
        QuietAction::Revalidate(model) => revalidate_now(world, model),
        QuietAction::Reset(model) => reset(world, model),
    }
}

/// What is due before, and then the behaviour itself, due or not.
fn recalculate_now<W: World>(world: &mut W, model: u32) -> Result<(), EventFault>
    ensures done { Runs means (W.state world.new) result (recalculates_now W.profile model (W.state world.old)) }
    ensures kept { W.kept world.new ≡ W.kept world.old }
    ensures form { (W.state world.new).form ≡ (W.state world.old).form }
    ensures calls { (W.state world.new).calls ≡ (W.state world.old).calls }
{
    rebuild_due(world, model)?;
    world.recalculate(model)
}

fn revalidate_now<W: World>(world: &mut W, model: u32) -> Result<(), EventFault>
    ensures done { Runs means (W.state world.new) result (revalidates_now W.profile model (W.state world.old)) }
    ensures kept { W.kept world.new ≡ W.kept world.old }
    ensures form { (W.state world.new).form ≡ (W.state world.old).form }
    ensures calls { (W.state world.new).calls ≡ (W.state world.old).calls }
{
    recalculate_due(world, model)?;
    world.revalidate(model)
}

fn refresh_now<W: World>(world: &mut W, model: u32) -> Result<FiredList, EventFault>
    ensures done { Makes means (map fired_of) (W.state world.new) result (refreshed_now W.profile model (W.state world.old)) }
    ensures kept { W.kept world.new ≡ W.kept world.old }
    ensures form { (W.state world.new).form ≡ (W.state world.old).form }
    ensures calls { (W.state world.new).calls ≡ (W.state world.old).calls }
{
    revalidate_due(world, model)?;
    world.refresh(Some(model))
}
