//! How many elements of each kind stand before an element: their numbers.

ghost use Rattle.std.specs.Prelude.{◌≡◌, ◌+◌, [], List, IfOk, map, slice_get, take, unwrap_or};
ghost use Rattle.xf_form_refusals.specs.Rows.{Seen, shown};
ghost use Rattle.xf_form_refusals.specs.Tally.{one_where};
ghost use Rattle.xf_form.specs.Counts.{counted, with_one, AreNumbers};

use std::alloc::{AllocError, Global};
use xf_form_refusals::{Class, Row, is_of, small};

/// How many elements there are that have a number, and how many of each kind.
#[derive(Clone, Copy, Debug)]
pub struct Counts {
    pub elements: u32,
    pub models: u32,
    pub instances: u32,
    pub binds: u32,
    pub submissions: u32,
    pub repeats: u32,
    pub switches: u32,
    pub controls: u32,
}

/// The counts before each element, and those of all.
#[derive(Drop)]
pub struct Numbers {
    pub before: Vec<Counts>,
    pub whole: Counts,
}

fn no_counts() -> Counts
    ensures { result ≡ counted [] }
{
    Counts {
        elements: 0,
        models: 0,
        instances: 0,
        binds: 0,
        submissions: 0,
        repeats: 0,
        switches: 0,
        controls: 0,
    }
}

// One more, where it holds.
fn plus(count: u32, holds: bool) -> Result<u32, AllocError>
    ensures { IfOk result (λ more. more ≡ count + one_where holds) }
{
    if !holds {
        return Ok(count);
    }
    small(count as usize + 1)
}

fn with_one(counts: Counts, row: &Row<'_>) -> Result<Counts, AllocError>
    ensures { IfOk result (λ more. more ≡ with_one counts (shown row.now)) }
{
    Ok(Counts {
        elements: plus(counts.elements, is_of(Class::Numbered, row))?,
        models: plus(counts.models, is_of(Class::Model, row))?,
        instances: plus(counts.instances, is_of(Class::Instance, row))?,
        binds: plus(counts.binds, is_of(Class::Bind, row))?,
        submissions: plus(counts.submissions, is_of(Class::Submission, row))?,
        repeats: plus(counts.repeats, is_of(Class::Repeat, row))?,
        switches: plus(counts.switches, is_of(Class::Switch, row))?,
        controls: plus(counts.controls, is_of(Class::Control, row))?,
    })
}

/// The counts before each of the elements, and those of all.
pub fn numbers_of(alloc: Global, rows: &[Row<'_>]) -> Result<Numbers, AllocError>
    ensures { IfOk result (λ numbers. AreNumbers numbers (map shown rows.now)) }
{
    let mut before = Vec::with_capacity(alloc, rows.len())?;
    let mut whole = no_counts();
    for row in rows {
        before.push(whole)?;
        whole = with_one(whole, row)?;
    }
    Ok(Numbers { before, whole })
}

/// The counts before the element at a place.
pub fn counts_at(numbers: &Numbers, place: u32) -> Counts
    ensures { (all : List Seen) → AreNumbers numbers.now all → result ≡ counted (take place all) }
{
    found_or(&numbers.before, place, numbers.whole)
}

fn found_or(before: &[Counts], place: u32, whole: Counts) -> Counts
    ensures { result ≡ unwrap_or (slice_get before.now place) whole }
{
    match before.get(place as usize) {
        Some(counts) => *counts,
        None => whole,
    }
}
