//! The turns of the calculates of a model, by an order of their nodes (XForms 1.1, section 4.3.2 and appendix C).

ghost use Rattle.std.specs.Prelude.{◌≡◌, ◌++◌, List, Some, map, option_map, slice_get, IfOk, OnOk};
ghost use Rattle.xf_def_model.specs.Applied as seen;
ghost use Rattle.xf_def_model.specs.Pertinent.{AllOf};
ghost use Rattle.xf_binds.specs.Held.{entries_in, entry_of, place_on};
ghost use Rattle.xf_binds.specs.Placed.{IsSeatedIn, is_calculate_at, placed_at, placed_from, placed_of, placed_on, places_from};

use crate::applied::Applied;
use crate::entry::{Entry, is_calculate};
use std::alloc::{AllocError, Global};
use xf_def_forest::{NodeId, NodeList};
use xf_def_model::Property;

/// A calculate with how many others stand before it among the entries of its model, and with its own place among these, each from 0.
#[derive(Clone, Copy, Debug)]
pub struct Turn {
    pub entry: Entry,
    pub place: u32,
    pub seat: usize,
}

/// The turns of the calculates of these nodes, in their order.
pub(crate) fn turns_on(
    alloc: Global,
    applied: &Applied,
    nodes: &NodeList,
) -> Result<Vec<Turn>, AllocError>
    ensures placed { IfOk result (λ turns. map placed_of turns.items ≡ placed_on (entries_in applied.now) nodes.now) }
    ensures seated { IfOk result (λ turns. AllOf (IsSeatedIn (entries_in applied.now)) turns.items) }
{
    let places = places_of(alloc, applied)?;
    let mut turns = Vec::with_capacity(alloc, nodes.len())?;
    for at in 0..nodes.len() {
        push_turn(applied, places.as_slice(), nodes.at(at), &mut turns)?;
    }
    Ok(turns)
}

/// With each entry how many calculates stand before it.
fn places_of(alloc: Global, applied: &Applied) -> Result<Vec<usize>, AllocError>
    ensures { IfOk result (λ places. places.items ≡ places_from 0 (entries_in applied.now)) }
{
    let mut places = Vec::with_capacity(alloc, applied.len())?;
    let mut count = 0;
    for at in 0..applied.len() {
        places.push(count)?;
        if is_calculate(applied.entry(at)) {
            count += 1;
        }
    }
    Ok(places)
}

/// Adds the turn of the calculate of a node, where it has one.
fn push_turn(
    applied: &Applied,
    places: &[usize],
    node: NodeId,
    turns: &mut Vec<Turn>,
) -> Result<(), AllocError>
    requires { places.now ≡ places_from 0 (entries_in applied.now) }
    ensures placed { OnOk result (map placed_of turns.new.items ≡ map placed_of turns.old.items ++ placed_from 0 (entries_in applied.now) node.number) }
    ensures seated { OnOk result (AllOf (IsSeatedIn (entries_in applied.now)) turns.old.items → AllOf (IsSeatedIn (entries_in applied.now)) turns.new.items) }
{
    match applied.place(node, Property::Calculate) {
        Some(at) => push_at(applied, places, at, turns),
        None => Ok(()),
    }
}

/// Adds that of the entry at a place.
fn push_at(
    applied: &Applied,
    places: &[usize],
    at: usize,
    turns: &mut Vec<Turn>,
) -> Result<(), AllocError>
    requires { (e : seen.Entry) → slice_get (entries_in applied.now) at ≡ Some e → place_on (entries_in applied.now) e.node Property.Calculate ≡ Some at }
    ensures placed { OnOk result (map placed_of turns.new.items ≡ map placed_of turns.old.items ++ placed_at (slice_get (entries_in applied.now) at) (slice_get places.now at)) }
    ensures seated { OnOk result (AllOf (IsSeatedIn (entries_in applied.now)) turns.old.items → AllOf (IsSeatedIn (entries_in applied.now)) turns.new.items) }
{
    match applied.entry(at) {
        Some(entry) => match places.get(at) {
            Some(place) => push_placed(entry, *place, at, turns),
            None => Ok(()),
        },
        None => Ok(()),
    }
}

/// Adds the turn of a calculate with its places. One that 32 bits do not count is told as want of memory: no memory holds so many.
fn push_placed(
    entry: Entry,
    place: usize,
    seat: usize,
    turns: &mut Vec<Turn>,
) -> Result<(), AllocError>
    ensures placed { OnOk result (map placed_of turns.new.items ≡ map placed_of turns.old.items ++ placed_at (Some (entry_of entry)) (Some place)) }
    ensures seated { (entries : List seen.Entry) → place_on entries entry.node.number Property.Calculate ≡ Some seat
        → OnOk result (AllOf (IsSeatedIn entries) turns.old.items → AllOf (IsSeatedIn entries) turns.new.items) }
{
    if place > u32::MAX as usize {
        return Err(AllocError);
    }
    turns.push(Turn {
        entry,
        place: place as u32,
        seat,
    })?;
    Ok(())
}
