//! The world of a form as the form machine that dispatch, actions and default actions are written over.

use crate::form_world::FormWorld;
use crate::{
    asking, behaviours, changed, choosing, elements, handlers, holding, noting, planning, reading,
    speaking, submitting, telling, trees,
};
use std::alloc::Global;
use xf_actions::{
    Acting, Concluded, Ending, EventFault, Fired, FiredList, Flag, Focus, Inserting, PlaceList,
    World,
};
use xf_def_forest::{NodeId, NodeList};
use xf_def_machine::Note;
use xf_def_syntax::{ElementList, Expr, Form, InsertWork};
use xf_def_ui::CallList;
use xf_name::Word;
use xf_store::Store;

impl World for FormWorld {
    ghost use Rattle.xf_def_form.specs.Formed.{profile};
    ghost use Rattle.xf_engine_world.specs.State.{kept_state, state_of};

    ghost profile = { profile };

    ghost state = { state_of };

    ghost kept = { kept_state };

    fn form(&self) -> &Form {
        elements::form(self)
    }

    fn turns(&self) -> u32 {
        self.work.turns()
    }

    fn spend(&mut self) -> Result<(), EventFault> {
        behaviours::spend(self)
    }

    fn calls(&self, fired: &Fired) -> Result<CallList, EventFault> {
        handlers::calls(self, fired)
    }

    fn actions(&self, element: u32) -> Result<ElementList, EventFault> {
        handlers::actions(self, element)
    }

    fn acting(&self, fired: &Fired, element: u32) -> Result<Option<Acting>, EventFault> {
        reading::acting(self, fired, element)
    }

    fn truth(&self, fired: &Fired, acting: &Acting, expr: &Expr) -> Result<bool, EventFault> {
        reading::truth(self, fired, acting, expr)
    }

    fn is_due(&self) -> bool {
        behaviours::is_due(self)
    }

    fn is_refresh_due(&self) -> bool {
        behaviours::is_refresh_due(self)
    }

    fn model_count(&self) -> u32 {
        behaviours::model_count(self)
    }

    fn is_flagged(&self, model: u32, flag: Flag) -> bool {
        behaviours::is_flagged(self, model, flag)
    }

    fn rebuild(&mut self, model: u32) -> Result<(), EventFault> {
        behaviours::rebuild(self, model)
    }

    fn recalculate(&mut self, model: u32) -> Result<(), EventFault> {
        behaviours::recalculate(self, model)
    }

    fn revalidate(&mut self, model: u32) -> Result<(), EventFault> {
        behaviours::revalidate(self, model)
    }

    fn refresh(&mut self, model: Option<u32>) -> Result<FiredList, EventFault> {
        behaviours::refresh(self, model)
    }

    fn submit<S: Store>(
        &mut self,
        submission: u32,
        store: &mut S,
    ) -> Result<Concluded, EventFault> {
        submitting::submit(self, submission, store)
    }

    fn instances(&self, model: u32) -> Result<ElementList, EventFault> {
        elements::instances(self, model)
    }

    fn put_back(&mut self, instance: u32) -> Result<(), EventFault> {
        trees::put_back(self, instance)
    }

    fn end_event(&self, ending: &Ending) -> Result<Option<Fired>, EventFault> {
        submitting::end_event(self, ending)
    }

    fn alloc(&self) -> Global {
        self.alloc
    }

    fn bound(&self, fired: &Fired, acting: &Acting) -> Result<Option<NodeId>, EventFault> {
        reading::bound(self, fired, acting)
    }

    fn is_readonly(&self, node: NodeId) -> bool {
        behaviours::is_readonly(self, node)
    }

    fn may_set(&self, node: NodeId) -> Result<(), EventFault> {
        behaviours::may_set(self, node)
    }

    fn text_at(
        &self,
        fired: &Fired,
        acting: &Acting,
        node: NodeId,
        expr: &Expr,
    ) -> Result<Word, EventFault> {
        reading::text_at(self, fired, acting, node, expr)
    }

    fn words(&self, element: u32) -> Result<Word, EventFault> {
        handlers::words(self, element)
    }

    fn message(&self, fired: &Fired, acting: &Acting) -> Result<Word, EventFault> {
        speaking::message(self, fired, acting)
    }

    fn set_text(&mut self, node: NodeId, text: &str) -> Result<(), EventFault> {
        behaviours::set_text(self, node, text)
    }

    fn add_note(&mut self, note: Note) -> Result<(), EventFault> {
        noting::add_note(self, note)
    }

    fn parent(&self, element: u32) -> Option<u32> {
        elements::parent(self, element)
    }

    fn id(&self, element: u32) -> Result<Word, EventFault> {
        elements::id(self, element)
    }

    fn model_element(&self, model: u32) -> u32 {
        elements::model_element(self, model)
    }

    fn submission_element(&self, submission: u32) -> u32 {
        elements::submission_element(self, submission)
    }

    fn repeat_element(&self, repeat: u32) -> u32 {
        elements::repeat_element(self, repeat)
    }

    fn switch_number(&self, element: u32) -> u32 {
        elements::switch_number(self, element)
    }

    fn place_of_case(&self, element: u32, case: u32) -> usize {
        elements::place_of_case(self, element, case)
    }

    fn case_at(&self, switch: u32, place: usize) -> u32 {
        elements::case_at(self, switch, place)
    }

    fn named_copy(&self, element: u32) -> Result<Option<NodeList>, EventFault> {
        choosing::named_copy(self, element)
    }

    fn set_index(&mut self, model: u32, repeat: u32, index: u64) -> Result<(), EventFault> {
        choosing::set_index(self, model, repeat, index)
    }

    fn selected(&self, switch: u32) -> usize {
        choosing::selected(self, switch)
    }

    fn set_case(&mut self, switch: u32, place: usize) {
        choosing::set_case(self, switch, place);
    }

    fn flag_refresh(&mut self, model: u32) {
        behaviours::flag_refresh(self, model);
    }

    fn whole(
        &self,
        fired: &Fired,
        acting: &Acting,
        focus: &Focus,
        expr: &Expr,
    ) -> Result<Option<i64>, EventFault> {
        reading::whole(self, fired, acting, focus, expr)
    }

    fn loaded(&self, fired: &Fired, acting: &Acting, resource: &str) -> Result<Word, EventFault> {
        speaking::loaded(self, fired, acting, resource)
    }

    fn moved(
        &self,
        fired: &Fired,
        acting: &Acting,
        context: &Option<Expr>,
    ) -> Result<Option<Focus>, EventFault> {
        reading::moved(self, fired, acting, context)
    }

    fn bound_set(
        &self,
        fired: &Fired,
        acting: &Acting,
        focus: &Focus,
    ) -> Result<NodeList, EventFault> {
        reading::bound_set(self, fired, acting, focus)
    }

    fn origin(
        &self,
        fired: &Fired,
        acting: &Acting,
        focus: &Focus,
        origin: &Option<Expr>,
        set: &NodeList,
    ) -> Result<NodeList, EventFault> {
        asking::origin(self, fired, acting, focus, origin, set)
    }

    fn insert_place(
        &self,
        fired: &Fired,
        acting: &Acting,
        at: &Option<Expr>,
        set: &NodeList,
    ) -> Result<Option<i64>, EventFault> {
        asking::insert_place(self, fired, acting, at, set)
    }

    fn delete_place(
        &self,
        fired: &Fired,
        acting: &Acting,
        at: &Option<Expr>,
        set: &NodeList,
    ) -> Result<Option<i64>, EventFault> {
        asking::delete_place(self, fired, acting, at, set)
    }

    fn planned_insert(
        &self,
        work: &InsertWork,
        focus: &Focus,
        set: &NodeList,
        origin: &NodeList,
        at: Option<i64>,
    ) -> Result<PlaceList, EventFault> {
        planning::planned_insert(self, work, focus, set, origin, at)
    }

    fn insert_location(
        &self,
        focus: &Focus,
        set: &NodeList,
        at: Option<i64>,
    ) -> Result<NodeList, EventFault> {
        asking::insert_location(self, focus, set, at)
    }

    fn planned_delete(&self, set: &NodeList, at: Option<i64>) -> Result<NodeList, EventFault> {
        planning::planned_delete(self, set, at)
    }

    fn instance_holding(&self, node: NodeId) -> Option<usize> {
        holding::instance_holding(self, node)
    }

    fn copy(&mut self, node: NodeId) -> Result<NodeId, EventFault> {
        trees::copy(self, node)
    }

    fn attach(&mut self, node: NodeId, parent: NodeId, place: usize) -> Result<(), EventFault> {
        trees::attach(self, node, parent, place)
    }

    fn detach(&mut self, node: NodeId) -> Result<(), EventFault> {
        trees::detach(self, node)
    }

    fn reindex(&mut self, added: &NodeList) -> Result<(), EventFault> {
        choosing::reindex(self, added)
    }

    fn event(
        &self,
        name: &str,
        bubbles: bool,
        is_cancelable: bool,
        target: u32,
        rows: &NodeList,
    ) -> Result<Fired, EventFault> {
        telling::event(self, name, bubbles, is_cancelable, target, rows)
    }

    fn insert_event(
        &self,
        instance: usize,
        inserting: &Inserting,
        tops: &NodeList,
    ) -> Result<Fired, EventFault> {
        changed::insert_event(self, instance, inserting, tops)
    }

    fn delete_event(
        &self,
        instance: usize,
        nodes: &NodeList,
        set: &NodeList,
        at: Option<i64>,
    ) -> Result<Fired, EventFault> {
        changed::delete_event(self, instance, nodes, set, at)
    }

    fn event_at(&self, name: &str, target: u32) -> Result<Fired, EventFault> {
        telling::event_at(self, name, target)
    }
}
