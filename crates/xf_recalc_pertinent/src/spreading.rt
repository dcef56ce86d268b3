//! How a change spreads among the entries of a model.

ghost use Rattle.std.specs.Prelude.{◌≡◌, ◌==◌, ◌<◌, ◌∷◌, ℕ, Bool, List, true, length, option_map, IfOk, OnOk};
ghost use Rattle.xf_def_forest.specs.Visit.{has};
ghost use Rattle.xf_binds.specs.Table.{kept_at};
ghost use Rattle.xf_binds_rebuild.specs.Found.{asks_or};
ghost use Rattle.xf_recalc_pertinent.specs.Places.{gives_at, is_marked, reads_at};
ghost use Rattle.xf_recalc_pertinent.specs.Spread.{Hears, IsSpread, Reaches, gives_before};

use crate::marks::{MarkList, is_marked};
use crate::numbers::Numbers;
use std::alloc::AllocError;
use xf_binds::{Asks, Table};
use xf_def_model::Property;

/// Marks what follows from the entries that are marked and from the nodes that are heard: each entry that reads such a node, and what
/// follows from it where it is a calculate. The cost follows what is reached. No memory holds as many nodes as the loop may take.
pub(crate) fn spread(
    table: &Table,
    model: u32,
    begun: MarkList,
    touched: Numbers,
) -> Result<MarkList, AllocError>
    requires { length begun ≡ length (kept_at table.now model).entries }
    ensures { IfOk result (λ marks. (heard : List ℕ)
        × IsSpread (kept_at table.now model).entries (kept_at table.now model).asks (is_marked begun) (λ n. has n touched) marks heard) }
{
    let mut marks = begun;
    let mut heard = touched;
    hear_marked(table, model, &marks, &mut heard)?;
    for at in 0..usize::MAX {
        match heard.get(at) {
            Some(number) => tell(table, model, number, &mut marks, &mut heard)?,
            None => return Ok(marks),
        }
    }
    Err(AllocError)
}

/// Hears what the marked entries give.
fn hear_marked(
    table: &Table,
    model: u32,
    marks: &MarkList,
    heard: &mut Numbers,
) -> Result<(), AllocError>
    ensures { OnOk result (Hears heard.old heard.new (gives_before (kept_at table.now model).entries (kept_at table.now model).asks marks.now (length marks.now))) }
{
    for at in 0..marks.len() {
        if is_marked(marks, at) {
            hear_given(table, model, at, heard)?;
        }
    }
    Ok(())
}

/// Marks the entries that read a node, and hears what they give.
fn tell(
    table: &Table,
    model: u32,
    number: u128,
    marks: &mut MarkList,
    heard: &mut Numbers,
) -> Result<(), AllocError>
    requires { length marks.old ≡ length (kept_at table.now model).entries }
    ensures { OnOk result (Reaches (kept_at table.now model).entries (kept_at table.now model).asks marks.old marks.new heard.old heard.new
        (λ place. reads_at (kept_at table.now model).entries (kept_at table.now model).asks place number)) }
{
    match table.readers(model, number) {
        Some(places) => {
            reach_all(table, model, places.as_slice(), marks, heard)?;
            Ok(())
        }
        None => Ok(()),
    }
}

/// Marks the entries at these places, and hears what they give.
fn reach_all(
    table: &Table,
    model: u32,
    places: &[usize],
    marks: &mut MarkList,
    heard: &mut Numbers,
) -> Result<(), AllocError>
    requires { (place : ℕ) → has place places.now ≡ true → place < length marks.old }
    ensures { OnOk result (Reaches (kept_at table.now model).entries (kept_at table.now model).asks marks.old marks.new heard.old heard.new
        (λ place. has place places.now)) }
{
    for place in places {
        reach(table, model, *place, marks, heard)?;
    }
    Ok(())
}

/// Marks the entry at a place, and hears what it gives where it was not marked.
fn reach(
    table: &Table,
    model: u32,
    place: usize,
    marks: &mut MarkList,
    heard: &mut Numbers,
) -> Result<(), AllocError>
    requires { place < length marks.old }
    ensures { OnOk result (Reaches (kept_at table.now model).entries (kept_at table.now model).asks marks.old marks.new heard.old heard.new
        (λ other. other == place)) }
{
    if is_marked(marks, place) {
        return Ok(());
    }
    hear_given(table, model, place, heard)?;
    marks.set(place, true);
    Ok(())
}

/// Hears the node of a calculate and the ancestors of that; another entry gives nothing.
fn hear_given(
    table: &Table,
    model: u32,
    place: usize,
    heard: &mut Numbers,
) -> Result<(), AllocError>
    ensures { OnOk result (Hears heard.old heard.new (gives_at (kept_at table.now model).entries (kept_at table.now model).asks place)) }
{
    match table.entry(model, place) {
        Some(entry) => {
            if entry.property == Property::Calculate {
                return hear_upward(heard, entry.node.number, table.asks(model, place));
            }
            Ok(())
        }
        None => Ok(()),
    }
}

/// Hears a node and its ancestors.
fn hear_upward(heard: &mut Numbers, number: u128, asks: Option<&Asks>) -> Result<(), AllocError>
    ensures { OnOk result (Hears heard.old heard.new (λ n. has n (number ∷ (asks_or (option_map (λ a. a.now) asks.entry)).above))) }
{
    heard.add(number)?;
    match asks {
        Some(asks) => heard.add_all(asks.above.as_slice()),
        None => Ok(()),
    }
}
