//! The entries and types of a model, in the order in which its binds set them.

ghost use Rattle.std.specs.Prelude.{◌≡◌, ℕ, nat_eq, ◌∷◌, [], ◌++◌, find, is_some, length, not, option_map, true, slice_get, Option, Some, None, IfOk, IfSome, OnOk, IsTrue, ◌↔◌};
ghost use Rattle.std.specs.Bool.{OnTrue, OnFalse};
ghost use Rattle.std.specs.List.{list_any};
ghost use Rattle.xf_def_model.specs.Applied.{sets_same};
ghost use Rattle.xf_def_model.specs.Entries.{is_computed};
ghost use Rattle.xf_def_model.specs.Properties.{sets_on};
ghost use Rattle.xf_binds.specs.Kept.{truth_from, valued_in};
ghost use Rattle.xf_def_model.specs.Applied as applied;
ghost use Rattle.xf_binds.specs.Held.{AreNear, AreSingle, IsOnly, entries_in, entry_of, held_at, held_by, held_of, held_on, held_same, holds, is_seat, is_set, newly_held, passes, place_on, seat_in, seats_or};
ghost use Rattle.indexmap.specs.IndexMap.{get};

use crate::entry::{Entry, Item, Seats};
use crate::truth_list::TruthList;
use indexmap::IndexMap;
use std::alloc::{AllocError, Global};
use std::marker::Model;
use xf_def_forest::NodeId;
use xf_def_model::Property;

/// So many numbers of nodes to each entry are found without hashing.
const NEAR: u128 = 16;

/// The entries and types that the binds of a model set: no property of a node is set twice. Contracts see them with the truths
/// that their values had, where they had one.
#[derive(Drop)]
pub struct Applied {
    items: Vec<Item>,
    seats: IndexMap<u128, Seats>,
    // The same by the numbers of the first nodes, where no key is hashed; none of them while entries are added.
    near: Vec<Seats>,
    // Where the last entry of each property stands: one that no entry sets is looked for on no node.
    last: Seats,
}

impl Model for Applied {
    ghost use Rattle.std.specs.Prelude.{List};
    ghost use Rattle.xf_binds.specs.Held.{AreNear, AreSet, Held, holds, IsSeated};

    ghost Value = { List Held };

    ghost view = { λ a. holds a.items.items };

    ghost invariant = { λ a. (IsSeated (holds a.items.items) a.seats) × (AreNear a.seats a.near.items) × (AreSet (holds a.items.items) a.last) };
}

impl Applied {
    pub fn new(alloc: Global) -> Self
        ensures { result ≡ [] }
    {
        Applied {
            items: Vec::new(alloc),
            seats: IndexMap::new(alloc),
            near: Vec::new(alloc),
            last: Seats::none(),
        }
    }

    /// Lets what is set on a node be found at the cost of a look into a list, where its number is not much greater than there are entries.
    pub(crate) fn bring_near(&mut self, alloc: Global) -> Result<(), AllocError>
        ensures { OnOk result (self.new ≡ self.old) }
    {
        let most = (self.items.len() as u128).saturating_mul(NEAR);
        let count = most.min(end_of(&self.items).saturating_mul(2));
        self.near = near_of(alloc, &self.seats, count as usize)?;
        Ok(())
    }

    pub fn len(&self) -> usize
        ensures { result ≡ length self.now }
    {
        self.items.len()
    }

    pub fn is_empty(&self) -> bool
        ensures { IsTrue result ↔ (self.now ≡ []) }
    {
        self.items.is_empty()
    }

    /// The entry at a place, from 0.
    pub fn entry(&self, at: usize) -> Option<Entry>
        ensures { option_map entry_of result ≡ slice_get (entries_in self.now) at }
    {
        match item_at(&self.items, at) {
            Some(item) => Some(item.entry),
            None => None,
        }
    }

    /// The place of the entry that sets the property of a node, from 0.
    pub fn place(&self, node: NodeId, property: Property) -> Option<usize>
        ensures { result ≡ place_on (entries_in self.now) node.number property }
    {
        self.seat(node, property)
    }

    /// Whether an entry sets the property on some node. It costs one look, however many entries there are.
    pub fn sets(&self, property: Property) -> bool
        ensures { result ≡ is_set property (entries_in self.now) }
    {
        self.last.at(property).is_some()
    }

    /// Whether an entry sets the property of the node.
    pub(crate) fn has(&self, node: NodeId, property: Property) -> bool
        ensures { result ≡ is_some (find (sets_on node.number property) (entries_in self.now)) }
    {
        self.place(node, property).is_some()
    }

    /// Where the property of the node is set.
    fn seat(&self, node: NodeId, property: Property) -> Option<usize>
        ensures { (i : ℕ) → is_seat result i ≡ passes (held_on node.number property) (slice_get self.now i) }
    {
        match self.last.at(property) {
            Some(_) => self.found(node, property),
            None => None,
        }
    }

    fn found(&self, node: NodeId, property: Property) -> Option<usize>
        ensures { (i : ℕ) → is_seat result i ≡ passes (held_on node.number property) (slice_get self.now i) }
    {
        match near_at(&self.near, node.number) {
            Some(seats) => seats.at(property),
            None => seat_in(&self.seats, node.number, property),
        }
    }

    /// The same, where this place is looked at first.
    fn seat_by(&self, node: NodeId, property: Property, likely: usize) -> Option<usize>
        ensures { (i : ℕ) → is_seat result i ≡ passes (held_on node.number property) (slice_get self.now i) }
    {
        if is_on(item_at(&self.items, likely), node, property) {
            return Some(likely);
        }
        self.seat(node, property)
    }

    /// No property of a node is set twice. This tells contracts so, and does nothing.
    pub(crate) fn is_single(&self)
        ensures single { AreSingle (entries_in self.now) }
        ensures only { (e : applied.Entry) → (found : Option applied.Entry) × IsOnly (entries_in self.now) e found }
    {
        let _ = &self.items;
    }

    /// The entry at the node that sets the property.
    pub(crate) fn at(&self, node: NodeId, property: Property) -> Option<Item>
        ensures { option_map held_of result ≡ held_at self.now node.number property }
    {
        match self.seat(node, property) {
            Some(seat) => Some(self.items[seat]),
            None => None,
        }
    }

    /// The entry that the same attribute of the same bind gives to the same node. A likely place is looked at first.
    pub(crate) fn same(&self, entry: &Entry, likely: usize) -> Option<Item>
        ensures { option_map held_of result ≡ held_same self.now (entry_of entry.now) }
    {
        match self.seat_by(entry.node, entry.property, likely) {
            Some(seat) => {
                let item = self.items[seat];
                if item.entry.bind == entry.bind {
                    Some(item)
                } else {
                    None
                }
            }
            None => None,
        }
    }

    /// The same: there is one at most.
    pub(crate) fn only(&self, entry: &Entry) -> Option<Entry>
        ensures { IsOnly (entries_in self.now) (entry_of entry.now) (option_map entry_of result) }
    {
        match self.seat(entry.node, entry.property) {
            Some(seat) => {
                let item = self.items[seat];
                if item.entry.bind == entry.bind {
                    Some(item.entry)
                } else {
                    None
                }
            }
            None => None,
        }
    }

    /// The truth that the same attribute of the same bind has for the same node, where the entry is here. A likely place is looked
    /// at first.
    pub(crate) fn truth(&self, entry: &Entry, likely: usize) -> Option<bool>
        requires { is_computed (entry_of entry.now) ≡ true }
        ensures { result ≡ truth_from (valued_in self.now) (entry_of entry.now) }
    {
        match self.same(entry, likely) {
            Some(item) => item.truth,
            None => None,
        }
    }

    /// The same, where the entries have these truths.
    pub(crate) fn told(&self, entry: &Entry, truths: &TruthList, likely: usize) -> Option<bool>
        requires { is_computed (entry_of entry.now) ≡ true }
        ensures { result ≡ truth_from (valued_in (held_by (entries_in self.now) truths.now)) (entry_of entry.now) }
    {
        match self.seat_by(entry.node, entry.property, likely) {
            Some(seat) => {
                if self.items[seat].entry.bind == entry.bind {
                    truths.at(seat)
                } else {
                    None
                }
            }
            None => None,
        }
    }

    /// Gives the entries these truths, by their places; one past them has none then. Takes no memory.
    pub(crate) fn tell(&mut self, truths: &TruthList)
        ensures { self.new ≡ held_by (entries_in self.old) truths.now }
    {
        give(&mut self.items, truths);
    }

    /// Adds an entry behind the others, unless the property of the node is set already. The answer is whether it was added.
    pub fn add(&mut self, entry: Entry) -> Result<bool, AllocError>
        ensures new { IfOk result (λ is_new. is_new ≡ not (list_any (sets_same (entry_of entry)) (entries_in self.old))) }
        ensures added { IfOk result (λ is_new. OnTrue is_new (self.new ≡ self.old ++ newly_held (entry_of entry) ∷ [])) }
        ensures kept { IfOk result (λ is_new. OnFalse is_new (self.new ≡ self.old)) }
    {
        self.near.clear();
        let mut seats = seats_in(&self.seats, entry.node.number);
        if seats.at(entry.property).is_some() {
            return Ok(false);
        }
        let at = self.items.len();
        seats.set(entry.property, at);
        self.items.push(Item { entry, truth: None })?;
        match self.seats.insert(entry.node.number, seats) {
            Ok(_) => {
                self.last.set(entry.property, at);
                Ok(true)
            }
            Err(_) => {
                let _ = self.items.pop();
                Err(AllocError)
            }
        }
    }
}

/// Gives the items these truths, by their places.
fn give(items: &mut Vec<Item>, truths: &TruthList)
    ensures { holds items.new.items ≡ held_by (entries_in (holds items.old.items)) truths.now }
{
    let count = items.len();
    for at in 0..count {
        let truth = truths.at(at);
        items[at].truth = truth;
    }
}

fn item_at(items: &[Item], at: usize) -> Option<&Item>
    ensures { option_map (λ i. i.now) result ≡ slice_get items.now at }
{
    items.get(at)
}

/// Whether there is an item, and it sets the property of the node.
fn is_on(item: Option<&Item>, node: NodeId, property: Property) -> bool
    ensures { result ≡ passes (held_on node.number property) (option_map (λ i. held_of i.now) item.entry) }
{
    match item {
        Some(item) => item.entry.node.number == node.number && item.entry.property == property,
        None => false,
    }
}

/// Past the numbers of the nodes of all items.
fn end_of(items: &[Item]) -> u128 {
    let mut end = 0;
    for item in items {
        end = item.entry.node.number.saturating_add(1).max(end);
    }
    end
}

/// Where a property of a node is set.
fn seat_in(seats: &IndexMap<u128, Seats>, number: u128, property: Property) -> Option<usize>
    ensures { result ≡ seat_in (get nat_eq seats.now number) property }
{
    match seats.get(&number) {
        Some(seats) => seats.at(property),
        None => None,
    }
}

/// Where the entries of so many nodes stand, from the first number.
fn near_of(
    alloc: Global,
    seats: &IndexMap<u128, Seats>,
    count: usize,
) -> Result<Vec<Seats>, AllocError>
    ensures { IfOk result (λ near. AreNear seats.now near.items) }
{
    let mut near = Vec::with_capacity(alloc, count)?;
    for number in 0..count {
        near.push(seats_in(seats, number as u128))?;
    }
    Ok(near)
}

fn near_at(near: &[Seats], number: u128) -> Option<&Seats>
    ensures { IfSome result (λ s. slice_get near.now number ≡ Some s.now) }
{
    if number >= near.len() as u128 {
        return None;
    }
    near.get(number as usize)
}

/// Where the entries of a node stand.
fn seats_in(seats: &IndexMap<u128, Seats>, number: u128) -> Seats
    ensures { result ≡ seats_or (get nat_eq seats.now number) }
{
    match seats.get(&number) {
        Some(seats) => *seats,
        None => Seats::none(),
    }
}
