//! The copies of a list, found by the rows in which they stand: those of one row stand close to one another (XForms 1.1, section 9.3.1).

ghost use Rattle.std.specs.Prelude.{◌≡◌, ◌==◌, ℕ, Some, cond, nat_eq, IfOk, OnOk, option_map};
ghost use Rattle.indexmap.specs.IndexMap.{get};
ghost use Rattle.xf_controls.specs.Before.{AreFirst, Knows, first_from, first_or, in_row, innermost};
ghost use Rattle.xf_controls.specs.Rising.{is_rising};
ghost use Rattle.xf_controls.specs.Seen.{number};

use crate::copy::ControlCopy;
use indexmap::IndexMap;
use std::alloc::{AllocError, Global};
use xf_def_forest::NodeId;

/// The copies of a list, whether each element has one at most, in document order, and the first place of a copy in each row.
#[derive(Drop)]
pub(crate) struct Before<'a> {
    pub copies: &'a [ControlCopy],
    pub rising: bool,
    pub places: IndexMap<u128, usize>,
}

pub(crate) fn before_of(alloc: Global, copies: &[ControlCopy]) -> Result<Before<'_>, AllocError>
    ensures copies { IfOk result (λ before. before.copies.now ≡ copies.now) }
    ensures known { IfOk result (λ before. Knows before) }
{
    Ok(Before {
        copies,
        rising: is_rising(copies),
        places: first_places(alloc, copies)?,
    })
}

/// Whether each element has one copy at most, in document order.
pub(crate) fn is_rising(copies: &[ControlCopy]) -> bool
    ensures { result ≡ is_rising copies.now }
{
    let mut least = 0;
    for copy in copies {
        let element = copy.element as u64;
        if element < least {
            return false;
        }
        least = element + 1;
    }
    true
}

fn first_places(alloc: Global, copies: &[ControlCopy]) -> Result<IndexMap<u128, usize>, AllocError>
    ensures { IfOk result (λ places. AreFirst places copies.now) }
{
    let mut places = IndexMap::new(alloc);
    for (at, copy) in copies.iter().enumerate() {
        add(&mut places, copy, at)?;
    }
    Ok(places)
}

/// Keeps the place of a copy under its innermost row, unless that has one.
fn add(
    places: &mut IndexMap<u128, usize>,
    copy: &ControlCopy,
    place: usize,
) -> Result<(), AllocError>
    ensures { OnOk result ((n : ℕ) → get nat_eq places.new n ≡ first_or (get nat_eq places.old n) (in_row n copy.now) place) }
{
    match innermost(copy) {
        Some(row) => add_row(places, row.number, place),
        None => Ok(()),
    }
}

fn add_row(places: &mut IndexMap<u128, usize>, row: u128, place: usize) -> Result<(), AllocError>
    ensures { OnOk result ((n : ℕ) → get nat_eq places.new n ≡ first_or (get nat_eq places.old n) (row == n) place) }
{
    if place_in(places, row).is_some() {
        return Ok(());
    }
    put(places, row, place)
}

fn put(places: &mut IndexMap<u128, usize>, row: u128, place: usize) -> Result<(), AllocError>
    ensures { OnOk result ((n : ℕ) → get nat_eq places.new n ≡ cond (nat_eq row n) (Some place) (get nat_eq places.old n)) }
{
    match places.insert(row, place) {
        Ok(_) => Ok(()),
        Err(_) => Err(AllocError),
    }
}

fn place_in(places: &IndexMap<u128, usize>, row: u128) -> Option<usize>
    ensures { result ≡ get nat_eq places.now row }
{
    match places.get(&row) {
        Some(place) => Some(*place),
        None => None,
    }
}

/// A place before which the list has no copy of this element and these rows; none where it has no such copy.
pub(crate) fn first_place(before: &Before<'_>, copy: &ControlCopy) -> Option<usize>
    requires { Knows before.now }
    ensures { result ≡ first_from copy.now before.now.copies.now }
{
    match innermost(copy) {
        Some(row) => place_in(&before.places, row.number),
        None => Some(0),
    }
}

/// The innermost row of a chain.
fn innermost(copy: &ControlCopy) -> Option<NodeId>
    ensures { option_map number result ≡ innermost copy.now.rows }
{
    if copy.rows.is_empty() {
        return None;
    }
    copy.rows.get(copy.rows.len() - 1)
}
