//! What the form machine is asked for. Each call is one of its functions; each but a want of memory is told as it is.

ghost use Rattle.std.specs.Prelude.{◌≡◌, List, [], map, length, get_or, slice_get, option_map, codes, IfErr, Some, Ok};
ghost use Rattle.xf_def_xpath.specs.Meaning.{meaning};
ghost use Rattle.xf_store.specs.Called.{Called};
ghost use Rattle.xf_def_ui.specs.Calls.{calls as called_by};
ghost use Rattle.xf_def_machine.specs.Refusal.{budget};
ghost use Rattle.xf_def_machine.specs.Surround.{interface, instance_holding as holding_instance};
ghost use Rattle.xf_def_machine.specs.Tables.{insert_by};
ghost use Rattle.xf_def_model.specs.Places.{planned_insert as insert_planned};
ghost use Rattle.xf_def_model.specs.Taken.{planned_delete as delete_planned};
ghost use Rattle.xf_def_machine.specs.Insert.{moved_focus, set_asked, origin_asked, at_asked as at_inserted, asked_with as insert_asked, location_of, insert_told};
ghost use Rattle.xf_def_machine.specs.Delete.{at_asked as at_deleted, asked_with as delete_asked, location_of as delete_location, delete_told};
ghost use Rattle.xf_def_ui.specs.Elements.{actions_in, element_at};
ghost use Rattle.xf_def_ui.specs.Around.{alone};
ghost use Rattle.xf_def_ui.specs.Cases.{cases_of, place_of_case as case_place};
ghost use Rattle.xf_def_ui.specs.Labels.{words_of};
ghost use Rattle.xf_def_machine.specs.Primitives.{spend as spent, set_text as text_set, add_note as noted, copy as copied, attach as attached, detach as detached, in_model, refresh_due, set_case as case_set};
ghost use Rattle.xf_def_machine.specs.Properties.{readonly_in};
ghost use Rattle.xf_def_machine.specs.Acting.{acting as acts, binding_of, truth_for, text_for, whole_for};
ghost use Rattle.xf_def_machine.specs.Choose.{named_copy as copy_named, set_index as index_set, switch_number};
ghost use Rattle.xf_def_machine.specs.Events.{fired as fires, fired_at as fires_at, model_element as element_of_model, submission_element as element_of_submission};
ghost use Rattle.xf_def_machine.specs.Telling.{loaded_text};
ghost use Rattle.xf_def_machine.specs.Behave.{model_at, rebuild as rebuilt, recalculate as recalculated, revalidate as revalidated};
ghost use Rattle.xf_def_machine.specs.Update.{reindex as reindexed, is_due as due, is_refresh_due as refresh_is_due};
ghost use Rattle.xf_actions.specs.Fault.{means};
ghost use Rattle.xf_actions.specs.Performs.{Runs, Makes, Reads, LeavesOver};
ghost use Rattle.xf_actions.specs.Seen.{IsProgram, fired_of, acting_of, focus_of, place_of, concluded_of, ending_of};
ghost use Rattle.xf_actions.specs.Told.{cleared_by, is_set, refreshed};
ghost use Rattle.xf_actions.specs.TreeChanges.{instance_event};
ghost use Rattle.xf_actions.specs.Defaulted.{submitted, told_by_end};
ghost use Rattle.xf_def_machine.specs.Construct.{construct, instances_of, put_back as instance_put_back};
ghost use Rattle.xf_actions.specs.Texts.{bound_for, message_text, settable};

use crate::acting::Acting;
use crate::fault::EventFault;
use crate::fired::{Concluded, Ending, Fired, FiredList};
use crate::place::{Inserting, PlaceList};
use std::alloc::Global;
use xf_def_forest::{NodeId, NodeList};
use xf_def_machine::Note;
use xf_def_syntax::{ElementList, Expr, Form, InsertWork};
use xf_def_ui::{CallList, Focus};
use xf_name::Word;
use xf_store::Store;

/// A behaviour of a model (XForms 1.1, section 4.3).
#[derive(Clone, Copy, Debug, PartialEq, Eq)]
pub enum Flag {
    Rebuild,
    Recalculate,
    Revalidate,
    Refresh,
}

/// The form machine, whoever keeps its state.
pub trait World {
    ghost use Rattle.xf_def_machine.specs.Profile.{Profile};
    ghost use Rattle.xf_def_machine.specs.State.{State};

    /// What is given beside a form.
    ghost profile: { Profile };

    /// The state of the machine that stands.
    ghost state: { Self → State };

    /// The state that stands again where an event is refused: no call changes it.
    ghost kept: { Self → State };

    fn form(&self) -> &Form
        ensures { IsProgram result.now (state self.now).form };

    fn turns(&self) -> u32
        ensures { result ≡ (state self.now).turns };

    /// Spends a turn. It is refused where none is left, and for nothing else.
    fn spend(&mut self) -> Result<(), EventFault>
        ensures done { Runs means (state self.new) result (spent (state self.old)) }
        ensures cause { IfErr result (λ fault. means fault ≡ Some budget) }
        ensures kept { kept self.new ≡ kept self.old }
        ensures form { (state self.new).form ≡ (state self.old).form }
        ensures calls { (state self.new).calls ≡ (state self.old).calls };

    /// The handlers that an event calls.
    fn calls(&self, fired: &Fired) -> Result<CallList, EventFault>
        ensures { Reads means (λ c. c) (state self.now) result (Ok (called_by (interface (state self.now)) (fired_of fired.now).event)) };

    /// The actions in an action.
    fn actions(&self, element: u32) -> Result<ElementList, EventFault>
        ensures { Reads means (λ c. c) (state self.now) result (Ok (actions_in (interface (state self.now)) element)) };

    /// The action that is this element, called for this event: none where an index is 0 or it has no context node.
    fn acting(&self, fired: &Fired, element: u32) -> Result<Option<Acting>, EventFault>
        ensures { Reads means (option_map (acting_of fired.now)) (state self.now) result (acts profile (fired_of fired.now) element (state self.now)) };

    fn truth(&self, fired: &Fired, acting: &Acting, expr: &Expr) -> Result<bool, EventFault>
        ensures { Reads means (λ b. b) (state self.now) result (truth_for profile (acting_of fired.now acting.now) (state self.now) (meaning expr.now)) };

    /// Whether a behaviour of a model is due.
    fn is_due(&self) -> bool
        ensures { result ≡ due (state self.now) };

    /// Whether the refresh of a model is due.
    fn is_refresh_due(&self) -> bool
        ensures { result ≡ refresh_is_due (state self.now) };

    fn model_count(&self) -> u32
        ensures { result ≡ length (state self.now).models };

    fn is_flagged(&self, model: u32, flag: Flag) -> bool
        ensures { result ≡ is_set flag (model_at (state self.now) model).flags };

    fn rebuild(&mut self, model: u32) -> Result<(), EventFault>
        ensures done { Runs means (state self.new) result (rebuilt profile model (state self.old)) }
        ensures kept { kept self.new ≡ kept self.old }
        ensures form { (state self.new).form ≡ (state self.old).form }
        ensures calls { (state self.new).calls ≡ (state self.old).calls };

    fn recalculate(&mut self, model: u32) -> Result<(), EventFault>
        ensures done { Runs means (state self.new) result (recalculated profile model (state self.old)) }
        ensures kept { kept self.new ≡ kept self.old }
        ensures form { (state self.new).form ≡ (state self.old).form }
        ensures calls { (state self.new).calls ≡ (state self.old).calls };

    fn revalidate(&mut self, model: u32) -> Result<(), EventFault>
        ensures done { Runs means (state self.new) result (Ok (revalidated profile model (state self.old))) }
        ensures kept { kept self.new ≡ kept self.old }
        ensures form { (state self.new).form ≡ (state self.old).form }
        ensures calls { (state self.new).calls ≡ (state self.old).calls };

    /// Brings the indexes up to date and makes the controls afresh. The refresh of one model is done with that, or that of all. It gives what is
    /// told of the differences.
    fn refresh(&mut self, model: Option<u32>) -> Result<FiredList, EventFault>
        ensures done { Makes means (map fired_of) (state self.new) result (refreshed profile (cleared_by model) (state self.old)) }
        ensures kept { kept self.new ≡ kept self.old }
        ensures form { (state self.new).form ≡ (state self.old).form }
        ensures calls { (state self.new).calls ≡ (state self.old).calls };

    /// The submission of this number, up to the event that tells its end: the store is called once at most.
    fn submit<S: Store>(&mut self, submission: u32, store: &mut S) -> Result<Concluded, EventFault>
        ensures done { LeavesOver means (concluded_of (state self.old).form (state self.new)) (state self.new) result (λ answers. submitted profile answers submission (slice_get (state self.old).form.submissions submission) (state self.old)) }
        ensures store { Called (S.calls store.old, S.to_come store.old) (S.calls store.new, S.to_come store.new) (state self.old).calls (state self.new).calls }
        ensures kept { kept self.new ≡ kept self.old }
        ensures form { (state self.new).form ≡ (state self.old).form };

    /// The instances of a model.
    fn instances(&self, model: u32) -> Result<ElementList, EventFault>
        ensures { Reads means (λ places. places) (state self.now) result (Ok (instances_of (state self.now) model)) };

    /// The document element of an instance as construction left it.
    fn put_back(&mut self, instance: u32) -> Result<(), EventFault>
        ensures done { Runs means (state self.new) result (instance_put_back profile (construct profile (state self.old).form) instance (state self.old)) }
        ensures kept { kept self.new ≡ kept self.old }
        ensures form { (state self.new).form ≡ (state self.old).form }
        ensures calls { (state self.new).calls ≡ (state self.old).calls };

    /// The event that tells the end of a submission: none where there is no such submission.
    fn end_event(&self, ending: &Ending) -> Result<Option<Fired>, EventFault>
        ensures { Reads means (option_map fired_of) (state self.now) result (Ok (told_by_end (ending_of (state self.now).form ending.now) (state self.now))) };

    fn alloc(&self) -> Global;

    /// The node that an action binds.
    fn bound(&self, fired: &Fired, acting: &Acting) -> Result<Option<NodeId>, EventFault>
        ensures { Reads means (option_map (λ n. n.number)) (state self.now) result (bound_for profile (acting_of fired.now acting.now) (state self.now)) };

    fn is_readonly(&self, node: NodeId) -> bool
        ensures { result ≡ readonly_in (state self.now) node.number };

    /// Refuses where the node has element children.
    fn may_set(&self, node: NodeId) -> Result<(), EventFault>
        ensures { Reads means (λ u. state self.now) (state self.now) result (settable node.number (state self.now)) };

    /// The value of an expression at a node, as a text.
    fn text_at(
        &self,
        fired: &Fired,
        acting: &Acting,
        node: NodeId,
        expr: &Expr,
    ) -> Result<Word, EventFault>
        ensures { Reads means (λ w. w) (state self.now) result (text_for profile (acting_of fired.now acting.now) (state self.now) (alone node.number) (meaning expr.now)) };

    /// The text that stands in an element.
    fn words(&self, element: u32) -> Result<Word, EventFault>
        ensures { Reads means (λ w. w) (state self.now) result (Ok (words_of (interface (state self.now)) (element_at (interface (state self.now)) element))) };

    /// The text of a message.
    fn message(&self, fired: &Fired, acting: &Acting) -> Result<Word, EventFault>
        ensures { Reads means (λ w. w) (state self.now) result (message_text profile (acting_of fired.now acting.now) (state self.now)) };

    fn set_text(&mut self, node: NodeId, text: &str) -> Result<(), EventFault>
        ensures done { Runs means (state self.new) result (text_set profile node.number text.now (state self.old)) }
        ensures kept { kept self.new ≡ kept self.old }
        ensures form { (state self.new).form ≡ (state self.old).form }
        ensures calls { (state self.new).calls ≡ (state self.old).calls };

    fn add_note(&mut self, note: Note) -> Result<(), EventFault>
        ensures done { Runs means (state self.new) result (noted profile note (state self.old)) }
        ensures kept { kept self.new ≡ kept self.old }
        ensures form { (state self.new).form ≡ (state self.old).form }
        ensures calls { (state self.new).calls ≡ (state self.old).calls };

    // ---- elements by their numbers

    fn parent(&self, element: u32) -> Option<u32>
        ensures { result ≡ (element_at (interface (state self.now)) element).parent };

    fn id(&self, element: u32) -> Result<Word, EventFault>
        ensures { Reads means (λ w. w) (state self.now) result (Ok (element_at (interface (state self.now)) element).id) };

    /// The elements of the model, the submission and the repeat of this number.
    fn model_element(&self, model: u32) -> u32
        ensures { result ≡ element_of_model (state self.now) model };

    fn submission_element(&self, submission: u32) -> u32
        ensures { result ≡ element_of_submission (state self.now) submission };

    fn repeat_element(&self, repeat: u32) -> u32
        ensures { result ≡ get_or (interface (state self.now)).repeats repeat 0 };

    /// The number of the switch that is this element.
    fn switch_number(&self, element: u32) -> u32
        ensures { result ≡ switch_number (element_at (interface (state self.now)) element).sort };

    /// The place of a case among those of an element, from 0.
    fn place_of_case(&self, element: u32, case: u32) -> usize
        ensures { result ≡ case_place (interface (state self.now)) element case };

    /// The case at a place of the switch of this number.
    fn case_at(&self, switch: u32, place: usize) -> u32
        ensures { result ≡ get_or (cases_of (interface (state self.now)) (get_or (interface (state self.now)).switches switch 0)) place 0 };

    // ---- rows and cases

    /// The rows of the copy that an id names: none where an index is 0.
    fn named_copy(&self, element: u32) -> Result<Option<NodeList>, EventFault>
        ensures { Reads means (λ rows. rows) (state self.now) result (Ok (copy_named (state self.now) element)) };

    /// The index of a repeat is set, which flags the refresh of the model.
    fn set_index(&mut self, model: u32, repeat: u32, index: u64) -> Result<(), EventFault>
        ensures done { Runs means (state self.new) result (index_set profile model repeat index (state self.old)) }
        ensures kept { kept self.new ≡ kept self.old }
        ensures form { (state self.new).form ≡ (state self.old).form }
        ensures calls { (state self.new).calls ≡ (state self.old).calls };

    /// The place of the case that is selected in the switch of this number.
    fn selected(&self, switch: u32) -> usize
        ensures { result ≡ get_or (state self.now).cases switch 0 };

    /// Another case of the switch of this number is selected: of one that is not there none is.
    fn set_case(&mut self, switch: u32, place: usize)
        ensures done { state self.new ≡ case_set switch place (state self.old) }
        ensures kept { kept self.new ≡ kept self.old };

    /// The refresh of a model is due: of one that is not there none is.
    fn flag_refresh(&mut self, model: u32)
        ensures done { state self.new ≡ in_model refresh_due model (state self.old) }
        ensures kept { kept self.new ≡ kept self.old };

    // ---- what actions read

    /// The value of an expression as a whole number: none for NaN.
    fn whole(
        &self,
        fired: &Fired,
        acting: &Acting,
        focus: &Focus,
        expr: &Expr,
    ) -> Result<Option<i64>, EventFault>
        ensures { Reads means (λ k. k) (state self.now) result (whole_for profile (acting_of fired.now acting.now) (state self.now) (focus_of focus.now) (meaning expr.now)) };

    /// The text of what an action binds, else this one.
    fn loaded(&self, fired: &Fired, acting: &Acting, resource: &str) -> Result<Word, EventFault>
        ensures { Reads means (λ w. w) (state self.now) result (loaded_text profile (acting_of fired.now acting.now) resource.now (state self.now) (binding_of (acting_of fired.now acting.now) (state self.now))) };

    // ---- what an insert and a delete ask for

    /// The context that its `context` gives: none where that selects nothing.
    fn moved(
        &self,
        fired: &Fired,
        acting: &Acting,
        context: &Option<Expr>,
    ) -> Result<Option<Focus>, EventFault>
        ensures { Reads means (option_map focus_of) (state self.now) result (moved_focus profile (acting_of fired.now acting.now) (option_map meaning context.now) (state self.now)) };

    /// The nodes that it binds.
    fn bound_set(
        &self,
        fired: &Fired,
        acting: &Acting,
        focus: &Focus,
    ) -> Result<NodeList, EventFault>
        ensures { Reads means (λ ns. ns) (state self.now) result (set_asked profile (acting_of fired.now acting.now) (focus_of focus.now) (state self.now)) };

    /// The nodes to copy.
    fn origin(
        &self,
        fired: &Fired,
        acting: &Acting,
        focus: &Focus,
        origin: &Option<Expr>,
        set: &NodeList,
    ) -> Result<NodeList, EventFault>
        ensures { Reads means (λ ns. ns) (state self.now) result (origin_asked profile (acting_of fired.now acting.now) (focus_of focus.now) (option_map meaning origin.now) set.now (state self.now)) };

    /// The place in the set that the `at` of an insert, and of a delete, names.
    fn insert_place(
        &self,
        fired: &Fired,
        acting: &Acting,
        at: &Option<Expr>,
        set: &NodeList,
    ) -> Result<Option<i64>, EventFault>
        ensures { Reads means (λ k. k) (state self.now) result (at_inserted profile (acting_of fired.now acting.now) (option_map meaning at.now) set.now (state self.now)) };

    fn delete_place(
        &self,
        fired: &Fired,
        acting: &Acting,
        at: &Option<Expr>,
        set: &NodeList,
    ) -> Result<Option<i64>, EventFault>
        ensures { Reads means (λ k. k) (state self.now) result (at_deleted profile (acting_of fired.now acting.now) (option_map meaning at.now) set.now (state self.now)) };

    /// Where the copies of an insert go, and what is told as its place.
    fn planned_insert(
        &self,
        work: &InsertWork,
        focus: &Focus,
        set: &NodeList,
        origin: &NodeList,
        at: Option<i64>,
    ) -> Result<PlaceList, EventFault>
        ensures { Reads means (map place_of) (state self.now) result (Ok (insert_planned (state self.now).forest.nodes (insert_asked (insert_by work.now) (state self.now) (focus_of focus.now) set.now origin.now at))) };

    fn insert_location(
        &self,
        focus: &Focus,
        set: &NodeList,
        at: Option<i64>,
    ) -> Result<NodeList, EventFault>
        ensures { Reads means (λ ns. ns) (state self.now) result (Ok (location_of at (focus_of focus.now) set.now)) };

    /// The nodes that a delete takes.
    fn planned_delete(&self, set: &NodeList, at: Option<i64>) -> Result<NodeList, EventFault>
        ensures { Reads means (λ ns. ns) (state self.now) result (Ok (delete_planned (state self.now).forest.nodes (delete_asked (state self.now) set.now at))) };

    // ---- trees

    /// The instance in which a node stands.
    fn instance_holding(&self, node: NodeId) -> Option<usize>
        ensures { result ≡ holding_instance (state self.now) node.number };

    /// A copy of a tree comes as a detached one.
    fn copy(&mut self, node: NodeId) -> Result<NodeId, EventFault>
        ensures done { Makes means (λ n. n.number) (state self.new) result (copied profile node.number (state self.old)) }
        ensures kept { kept self.new ≡ kept self.old }
        ensures form { (state self.new).form ≡ (state self.old).form }
        ensures calls { (state self.new).calls ≡ (state self.old).calls };

    /// A detached tree comes below a parent, behind so many children.
    fn attach(&mut self, node: NodeId, parent: NodeId, place: usize) -> Result<(), EventFault>
        ensures done { Runs means (state self.new) result (attached profile node.number parent.number place (state self.old)) }
        ensures kept { kept self.new ≡ kept self.old }
        ensures form { (state self.new).form ≡ (state self.old).form }
        ensures calls { (state self.new).calls ≡ (state self.old).calls };

    /// A tree is cut off its parent.
    fn detach(&mut self, node: NodeId) -> Result<(), EventFault>
        ensures done { Runs means (state self.new) result (Ok (detached node.number (state self.old))) }
        ensures kept { kept self.new ≡ kept self.old }
        ensures form { (state self.new).form ≡ (state self.old).form }
        ensures calls { (state self.new).calls ≡ (state self.old).calls };

    /// The indexes are brought up to date where these nodes were just inserted.
    fn reindex(&mut self, added: &NodeList) -> Result<(), EventFault>
        ensures done { Runs means (state self.new) result (reindexed profile added.now (state self.old)) }
        ensures kept { kept self.new ≡ kept self.old }
        ensures form { (state self.new).form ≡ (state self.old).form }
        ensures calls { (state self.new).calls ≡ (state self.old).calls };

    // ---- events

    /// An event to the copy of an element in these rows. Whether it bubbles and can be cancelled counts where its name is not known.
    fn event(
        &self,
        name: &str,
        bubbles: bool,
        is_cancelable: bool,
        target: u32,
        rows: &NodeList,
    ) -> Result<Fired, EventFault>
        ensures { Reads means fired_of (state self.now) result (Ok (fires name.now bubbles is_cancelable [] target rows.now)) };

    /// The event that an insert, and a delete, tells an instance.
    fn insert_event(
        &self,
        instance: usize,
        inserting: &Inserting,
        tops: &NodeList,
    ) -> Result<Fired, EventFault>
        ensures { Reads means fired_of (state self.now) result (Ok (instance_event (codes "xforms-insert") (insert_told (state self.now) inserting.now.is_before tops.now (map (λ q. q.origin) (map place_of inserting.now.places)) inserting.now.location) instance (state self.now))) };

    fn delete_event(
        &self,
        instance: usize,
        nodes: &NodeList,
        set: &NodeList,
        at: Option<i64>,
    ) -> Result<Fired, EventFault>
        ensures { Reads means fired_of (state self.now) result (Ok (instance_event (codes "xforms-delete") (delete_told (state self.now) nodes.now (delete_location (state self.now).form.decimals set.now at)) instance (state self.now))) };

    /// An event to an element in the indexed rows.
    fn event_at(&self, name: &str, target: u32) -> Result<Fired, EventFault>
        ensures { Reads means fired_of (state self.now) result (Ok (fires_at (state self.now) name.now [] target)) };
}
