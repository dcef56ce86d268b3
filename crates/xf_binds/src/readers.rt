//! Which entries read a node, found by the node.

ghost use Rattle.std.specs.Prelude.{◌≡◌, ◌==◌, ℕ, ◌&&◌, ◌||◌, map, IfOk, OnOk};
ghost use Rattle.xf_def_forest.specs.Visit.{has};
ghost use Rattle.xf_binds.specs.Held.{entries_in};
ghost use Rattle.xf_binds.specs.Readers.{TellsReaders, readers_at};

use crate::applied::Applied;
use crate::web::Web;
use indexmap::IndexMap;
use std::alloc::{AllocError, Global};
use xf_base::Items;
use xf_def_forest::NodeId;

/// Places of entries, each from 0.
pub type PlaceList = Items<usize>;

/// From the number of a node to the places of the entries that read it.
pub(crate) type Readers = IndexMap<u128, PlaceList>;

/// The readers of all nodes among these entries, which ask this.
pub(crate) fn readers_of(alloc: Global, applied: &Applied, web: &Web) -> Result<Readers, AllocError>
    ensures { IfOk result (TellsReaders (entries_in applied.now) web.now) }
{
    let mut readers = IndexMap::new(alloc);
    for place in 0..applied.len() {
        match web.get(place) {
            Some(asks) => add_all(alloc, &mut readers, asks.reads.as_slice(), place)?,
            None => {}
        }
    }
    Ok(readers)
}

/// Adds an entry as a reader of these nodes.
fn add_all(
    alloc: Global,
    readers: &mut Readers,
    nodes: &[NodeId],
    place: usize,
) -> Result<(), AllocError>
    ensures { OnOk result ((n other : ℕ) → has other (readers_at readers.new n)
        ≡ ((has n (map (λ i. i.number) nodes.now) && (place == other)) || has other (readers_at readers.old n))) }
{
    for node in nodes {
        add(alloc, readers, node.number, place)?;
    }
    Ok(())
}

/// Adds an entry as a reader of a node.
fn add(alloc: Global, readers: &mut Readers, number: u128, place: usize) -> Result<(), AllocError>
    ensures { OnOk result ((n other : ℕ) → has other (readers_at readers.new n)
        ≡ (((number == n) && (place == other)) || has other (readers_at readers.old n))) }
{
    match readers.get_mut(&number) {
        Some(list) => list.push(place),
        None => {
            let mut list = PlaceList::new(alloc);
            list.push(place)?;
            readers.insert(number, list)?;
            Ok(())
        }
    }
}
