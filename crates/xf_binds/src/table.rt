//! What is kept of all models.

ghost use Rattle.std.specs.Prelude.{◌≡◌, ◌<◌, ◌-◌, ◌^◌, ℕ, [], ◌∷◌, ◌++◌, Some, None, false, true, filter, find, is_some, length, min, replicate, option_map, slice_get, slice_index_or, IfOk, OnOk, OnErr};
ghost use Rattle.std.specs.Bool.{OnFalse, OnTrue};
ghost use Rattle.std.specs.List.{list_any};
ghost use Rattle.xf_def_forest.specs.Visit.{has};
ghost use Rattle.xf_def_model.specs.Applied as applied;
ghost use Rattle.xf_def_model.specs.Applied.{is_property};
ghost use Rattle.xf_def_model.specs.Entries.{is_computed};
ghost use Rattle.xf_def_model.specs.Properties.{sets_on};
ghost use Rattle.xf_binds.specs.Asked.{asked_by_all, asked_of, asking};
ghost use Rattle.xf_binds.specs.Held.{AreSingle, IsOnly, entries_in, entry_of, is_set};
ghost use Rattle.xf_binds.specs.Alike.{AreAlike};
ghost use Rattle.xf_binds.specs.Kept.{IsAlone, entries_of, no_kept, recalculated, truth_at, truth_in, values_of};
ghost use Rattle.xf_binds.specs.Placed.{AreInOrder, turns_or};
ghost use Rattle.xf_binds.specs.Readers.{AreReaders, list_or};
ghost use Rattle.xf_binds.specs.Table.{all_committed, all_rolled_back, held_or, kept_at, nodes_or, truth_among, web_or, with_kept};

use crate::applied::Applied;
use crate::entry::Entry;
use crate::kept::Kept;
use crate::node_set::NodeSet;
use crate::ordered::Ordered;
use crate::readers::PlaceList;
use crate::truth_list::TruthList;
use crate::turns::Turn;
use crate::web::{Asks, Web};
use std::alloc::{AllocError, Global};
use std::marker::Model;
use xf_def_forest::{NodeId, NodeList};
use xf_def_model::Property;

/// What the binds of each model set, the values of these entries, the nodes that are not valid, and the marks of what has changed
/// since the last recalculation.
#[derive(Drop)]
pub struct Table {
    models: Vec<Kept>,
}

impl Model for Table {
    ghost use Rattle.std.specs.Prelude.{List};
    ghost use Rattle.xf_binds.specs.Kept.{Kept};

    ghost Value = { List Kept };

    ghost view = { λ t. t.models.items };
}

impl Table {
    /// A table of so many models, nothing of which was computed.
    pub fn new(alloc: Global, models: u32) -> Result<Self, AllocError>
        ensures { IfOk result (λ table. table ≡ replicate models no_kept) }
    {
        let count = models as usize;
        let mut kept = Vec::new(alloc);
        while kept.len() < count {
            kept.push(Kept::new(alloc))?;
        }
        Ok(Table { models: kept })
    }

    /// How many entries and types a model has.
    pub fn len(&self, model: u32) -> usize
        ensures { result ≡ length (kept_at self.now model).entries }
    {
        match self.models.get(model as usize) {
            Some(kept) => kept.present().len(),
            None => 0,
        }
    }

    /// An entry of a model by its place, from 0.
    pub fn entry(&self, model: u32, at: usize) -> Option<Entry>
        ensures { option_map entry_of result ≡ slice_get (kept_at self.now model).entries at }
    {
        match self.models.get(model as usize) {
            Some(kept) => kept.present().entry(at),
            None => None,
        }
    }

    /// The entries and types of a model.
    pub fn present(&self, model: u32) -> Option<&Applied>
        ensures { held_or (option_map (λ a. a.now) result) ≡ (kept_at self.now model).entries }
    {
        match self.models.get(model as usize) {
            Some(kept) => Some(kept.present()),
            None => None,
        }
    }

    /// What each of them asks of the data.
    pub fn web(&self, model: u32) -> Option<&Web>
        ensures { web_or (option_map (λ w. w.now) result) ≡ (kept_at self.now model).asks }
    {
        match self.models.get(model as usize) {
            Some(kept) => Some(kept.web()),
            None => None,
        }
    }

    /// The calculates of a model, none before one that it reads, each with how many others stand before it among the entries and with
    /// its own place among these. A rebuild found them, so that they are not looked up.
    pub fn turns(&self, model: u32) -> Option<&[Turn]>
        ensures { AreInOrder (kept_at self.now model).entries (kept_at self.now model).asks (turns_or (option_map (λ t. t.now) result)) }
    {
        match self.models.get(model as usize) {
            Some(kept) => Some(kept.turns()),
            None => None,
        }
    }

    /// The places of the entries of a model that read a node. To find them costs the same however many entries there are.
    pub fn readers(&self, model: u32, number: u128) -> Option<&PlaceList>
        ensures { AreReaders (kept_at self.now model).entries (kept_at self.now model).asks number (list_or (option_map (λ p. p.now) result)) }
    {
        match self.models.get(model as usize) {
            Some(kept) => kept.readers(number),
            None => None,
        }
    }

    /// What an entry of a model asks of the data.
    pub fn asks(&self, model: u32, at: usize) -> Option<&Asks>
        ensures { option_map (λ a. a.now) result ≡ slice_get (kept_at self.now model).asks at }
    {
        match self.models.get(model as usize) {
            Some(kept) => kept.web().get(at),
            None => None,
        }
    }

    /// How many nodes the entries of all models read and look at together, where those of one model ask this; at most as many as 64
    /// bits count.
    pub fn asked_with(&self, model: u32, web: &Web) -> u64
        ensures { result ≡ min (asked_by_all (asking self.now model web.now)) (2 ^ 64 - 1) }
    {
        asked_among(&self.models, model as usize, web)
    }

    /// The truth that the node's entry of this property has, of the first model in which it has one; `None` where it has no such
    /// entry, `Some(None)` where that has no value yet.
    pub fn truth(&self, node: NodeId, property: Property) -> Option<Option<bool>>
        requires { is_property property Property.Kind ≡ false }
        ensures { result ≡ truth_among self.now property node.number }
    {
        truth_among(&self.models, node, property)
    }

    /// The same of one model alone.
    pub fn truth_in(&self, model: u32, node: NodeId, property: Property) -> Option<Option<bool>>
        requires { is_property property Property.Kind ≡ false }
        ensures { result ≡ truth_in (kept_at self.now model) property node.number }
    {
        match self.models.get(model as usize) {
            Some(kept) => kept.truth(node, property),
            None => None,
        }
    }

    /// Whether the node has an entry of this property in some model: it costs less than to ask for the truth.
    pub fn has(&self, node: NodeId, property: Property) -> bool
        ensures { result ≡ is_some (truth_among self.now property node.number) }
    {
        has_among(&self.models, node, property)
    }

    /// Whether an entry of some model sets this property on some node. It costs one look for each model, however many entries there are.
    pub fn sets(&self, property: Property) -> bool
        ensures { result ≡ list_any (λ k. is_set property k.entries) self.now }
    {
        sets_among(&self.models, property)
    }

    /// The same of one model alone.
    pub fn sets_in(&self, model: u32, property: Property) -> bool
        ensures { result ≡ is_set property (kept_at self.now model).entries }
    {
        match self.models.get(model as usize) {
            Some(kept) => kept.sets(property),
            None => false,
        }
    }

    /// The entry of a model that sets a property of a node.
    pub fn entry_on(&self, model: u32, node: NodeId, property: Property) -> Option<Entry>
        ensures { option_map entry_of result ≡ find (sets_on node.number property) (kept_at self.now model).entries }
    {
        match self.models.get(model as usize) {
            Some(kept) => kept.entry_on(node, property),
            None => None,
        }
    }

    /// The entry that the same attribute of the same bind gave to the same node at the last recalculation of a model.
    pub fn stood(&self, model: u32, entry: &Entry) -> Option<Entry>
        requires { is_computed (entry_of entry.now) ≡ true }
        ensures { IsOnly (entries_of (kept_at self.now model).stood) (entry_of entry.now) (option_map entry_of result) }
    {
        match self.models.get(model as usize) {
            Some(kept) => kept.stood(entry),
            None => None,
        }
    }

    /// Whether the entries of a model that stood at its last recalculation are the present ones, in the same order. That they may not be
    /// promises nothing. It costs one look, however many entries there are. No property of a node is set twice, be it so or not.
    pub fn is_settled(&self, model: u32) -> bool
        ensures settled { OnTrue result (entries_of (kept_at self.now model).stood ≡ filter is_computed (kept_at self.now model).entries) }
        ensures single { AreSingle (kept_at self.now model).entries }
    {
        match self.models.get(model as usize) {
            Some(kept) => {
                kept.is_single();
                kept.is_settled()
            }
            None => false,
        }
    }

    /// The truth that the entry at a place of a model had at the last recalculation, where it stood then; a type has none. It costs one
    /// look where the entry stood at the same place. An entry stands alone, be there a truth or not.
    pub fn truth_at(&self, model: u32, at: usize) -> Option<bool>
        ensures truth { result ≡ truth_at (kept_at self.now model) at }
        ensures alone { (e : applied.Entry) → slice_get (kept_at self.now model).entries at ≡ Some e → is_computed e ≡ true → IsAlone (kept_at self.now model) e }
    {
        match self.models.get(model as usize) {
            Some(kept) => kept.truth_at(at),
            None => None,
        }
    }

    /// The nodes of a model that have another text since its last recalculation.
    pub fn texts(&self, model: u32) -> Option<&NodeList>
        ensures { nodes_or (option_map (λ n. n.now) result) ≡ (kept_at self.now model).texts }
    {
        match self.models.get(model as usize) {
            Some(kept) => Some(kept.texts()),
            None => None,
        }
    }

    /// Those in whose list of attributes and children one came or went since.
    pub fn lists(&self, model: u32) -> Option<&NodeList>
        ensures { nodes_or (option_map (λ n. n.now) result) ≡ (kept_at self.now model).lists }
    {
        match self.models.get(model as usize) {
            Some(kept) => Some(kept.lists()),
            None => None,
        }
    }

    /// Whether the last revalidation of a model found the node not valid.
    pub fn is_invalid(&self, node: NodeId) -> bool
        ensures { result ≡ list_any (λ k. has node.number k.invalid) self.now }
    {
        self.models.iter().any(|kept| kept.is_invalid(node))
    }

    /// Keeps the nodes that were found not valid in place of those before. Takes no memory. Whether they are the same, in the same order.
    pub fn set_invalid(&mut self, model: u32, invalid: NodeSet) -> bool
        requires { model < length self.old }
        ensures done { self.new ≡ with_kept self.old model (record (kept_at self.old model) { invalid = invalid }) }
        ensures same { OnTrue result (invalid ≡ (kept_at self.old model).invalid) }
        ensures differs { OnFalse result (invalid ≡ (kept_at self.old model).invalid → ⊥) }
    {
        self.models[model as usize].set_invalid(invalid)
    }

    /// Keeps the entries of a rebuild. Takes no memory.
    pub fn rebuild(&mut self, model: u32, present: Ordered)
        requires { model < length self.old }
        ensures { self.new ≡ with_kept self.old model (record (kept_at self.old model) { entries = entries_in present.held; asks = present.asks }) }
    {
        self.models[model as usize].rebuild(present);
    }

    /// Whether the properties relevant, readonly and required are by these truths of the entries of a model, told by their places, what they are
    /// by those of its last recalculation. A model that is not there keeps all.
    pub fn keeps_properties(&self, model: u32, truths: &TruthList) -> bool
        ensures alike { OnTrue result (AreAlike (values_of (kept_at self.now model)) (values_of (recalculated truths.now (kept_at self.now model)))) }
        ensures differs { OnFalse result (AreAlike (values_of (kept_at self.now model)) (values_of (recalculated truths.now (kept_at self.now model))) → ⊥) }
    {
        match self.models.get(model as usize) {
            Some(kept) => kept.keeps_properties(truths),
            None => true,
        }
    }

    /// Keeps the truths that a recalculation found, by the places of the entries, and forgets the marks. Takes no memory.
    pub fn recalculated(&mut self, model: u32, truths: TruthList)
        requires { model < length self.old }
        ensures { self.new ≡ with_kept self.old model (recalculated truths (kept_at self.old model)) }
    {
        self.models[model as usize].recalculated(truths);
    }

    /// Keeps all as it stands: this is what a later `roll_back` gives back. Takes no memory.
    pub fn commit(&mut self)
        ensures { self.new ≡ all_committed self.old }
    {
        commit_all(&mut self.models);
    }

    /// Gives all back as it was at the last commit. Takes no memory.
    pub fn roll_back(&mut self)
        ensures { self.new ≡ all_rolled_back self.old }
    {
        roll_back_all(&mut self.models);
    }

    /// Marks a node that has another text.
    pub fn mark_text(&mut self, model: u32, node: NodeId) -> Result<(), AllocError>
        requires { model < length self.old }
        ensures ok { OnOk result (self.new ≡ with_kept self.old model (record (kept_at self.old model) { texts = (kept_at self.old model).texts ++ node.number ∷ [] })) }
        ensures err { OnErr result (self.new ≡ self.old) }
    {
        self.models[model as usize].mark_text(node)
    }

    /// Marks a node in whose list of attributes and children one came or went.
    pub fn mark_list(&mut self, model: u32, node: NodeId) -> Result<(), AllocError>
        requires { model < length self.old }
        ensures ok { OnOk result (self.new ≡ with_kept self.old model (record (kept_at self.old model) { lists = (kept_at self.old model).lists ++ node.number ∷ [] })) }
        ensures err { OnErr result (self.new ≡ self.old) }
    {
        self.models[model as usize].mark_list(node)
    }
}

fn commit_all(models: &mut Vec<Kept>)
    ensures { models.new.items ≡ all_committed models.old.items }
{
    let count = models.len();
    for at in 0..count {
        models[at].commit();
    }
}

fn roll_back_all(models: &mut Vec<Kept>)
    ensures { models.new.items ≡ all_rolled_back models.old.items }
{
    let count = models.len();
    for at in 0..count {
        models[at].roll_back();
    }
}

/// What the models ask together, where one of them asks this.
fn asked_among(models: &[Kept], model: usize, web: &Web) -> u64
    ensures { result ≡ min (asked_by_all (asking models.now model web.now)) (2 ^ 64 - 1) }
{
    let mut sum: u64 = 0;
    for at in 0..models.len() {
        sum = sum.saturating_add(asked_at(models, model, web, at));
    }
    sum
}

/// What a model asks, where one of them asks this.
fn asked_at(models: &[Kept], model: usize, web: &Web, at: usize) -> u64
    requires { at < length models.now }
    ensures { result ≡ min (asked_of (slice_index_or (asking models.now model web.now) at no_kept).asks) (2 ^ 64 - 1) }
{
    if at == model {
        return web.asked();
    }
    models[at].web().asked()
}

/// The truth of the first of these models in which the node has such an entry.
fn truth_among(models: &[Kept], node: NodeId, property: Property) -> Option<Option<bool>>
    requires { is_property property Property.Kind ≡ false }
    ensures { result ≡ truth_among models.now property node.number }
{
    for kept in models {
        if let Some(truth) = kept.truth(node, property) {
            return Some(truth);
        }
    }
    None
}

/// Whether the node has such an entry in one of these models.
fn has_among(models: &[Kept], node: NodeId, property: Property) -> bool
    ensures { result ≡ is_some (truth_among models.now property node.number) }
{
    for kept in models {
        if kept.has(node, property) {
            return true;
        }
    }
    false
}

/// Whether an entry of one of these models sets this property on some node.
fn sets_among(models: &[Kept], property: Property) -> bool
    ensures { result ≡ list_any (λ k. is_set property k.entries) models.now }
{
    for kept in models {
        if kept.sets(property) {
            return true;
        }
    }
    false
}
