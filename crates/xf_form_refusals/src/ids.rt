//! The ids of a form.

ghost use Rattle.std.specs.Prelude.{◌≡◌, ◌+◌, ◌^◌, ◌<◌, ℕ, List, IfOk, OnOk, map};
ghost use Rattle.xf_form_refusals.specs.Classes.{is_called, count_called};
ghost use Rattle.xf_form_refusals.specs.Rows.{Seen, shown};
ghost use Rattle.xf_form_refusals.specs.Tally.{counted, one_where, CountsOneId, HasCounts};

use crate::classes::{Class, is_of};
use crate::rows::{Row, id_in};
use std::alloc::{AllocError, Global};
use std::collections::HashMap;

/// How many elements have each id.
pub type Tally<'a> = HashMap<&'a str, usize>;

/// How many elements of a kind have each id.
pub fn tally_of<'a>(alloc: Global, rows: &[Row<'a>], class: Class) -> Result<Tally<'a>, AllocError>
    ensures { IfOk result (λ tally. (id : List ℕ) → counted tally id ≡ count_called class (map shown rows.now) id) }
{
    let mut tally = HashMap::new(alloc);
    for row in rows {
        count_row(&mut tally, row, class)?;
    }
    Ok(tally)
}

// An element is counted under its id, where it is of the kind.
fn count_row<'a>(tally: &mut Tally<'a>, row: &Row<'a>, class: Class) -> Result<(), AllocError>
    requires { (id : List ℕ) → counted tally.old id + 1 < 2 ^ 64 }
    ensures { OnOk result ((id : List ℕ) → counted tally.new id ≡ counted tally.old id + one_where (is_called class id (shown row.now))) }
{
    if !is_of(class, row) {
        return Ok(());
    }
    let element = row.element;
    match id_in(element.attributes.as_slice()) {
        None => Ok(()),
        Some(id) => count(tally, id),
    }
}

fn count<'a>(tally: &mut Tally<'a>, id: &'a str) -> Result<(), AllocError>
    requires { counted tally.old id.now + 1 < 2 ^ 64 }
    ensures { OnOk result (CountsOneId tally.old tally.new id.now) }
{
    let next = count_of(tally, id) + 1;
    tally.insert(id, next)?;
    Ok(())
}

/// How many have the id.
pub fn count_of(tally: &Tally<'_>, id: &str) -> usize
    ensures { result ≡ counted tally.now id.now }
{
    match tally.get(id) {
        Some(count) => *count,
        None => 0,
    }
}

/// How many elements have each id: of all kinds that attributes name, and of all outside instances.
#[derive(Drop)]
pub struct Ids<'a> {
    pub all: Tally<'a>,
    pub numbered: Tally<'a>,
    pub models: Tally<'a>,
    pub instances: Tally<'a>,
    pub binds: Tally<'a>,
    pub submissions: Tally<'a>,
    pub repeats: Tally<'a>,
    pub switches: Tally<'a>,
    pub cases: Tally<'a>,
    pub controls: Tally<'a>,
}

pub fn ids_of<'a>(alloc: Global, rows: &[Row<'a>]) -> Result<Ids<'a>, AllocError>
    ensures { IfOk result (λ ids. HasCounts ids (map shown rows.now)) }
{
    Ok(Ids {
        all: tally_of(alloc, rows, Class::Outside)?,
        numbered: tally_of(alloc, rows, Class::Numbered)?,
        models: tally_of(alloc, rows, Class::Model)?,
        instances: tally_of(alloc, rows, Class::Instance)?,
        binds: tally_of(alloc, rows, Class::Bind)?,
        submissions: tally_of(alloc, rows, Class::Submission)?,
        repeats: tally_of(alloc, rows, Class::Repeat)?,
        switches: tally_of(alloc, rows, Class::Switch)?,
        cases: tally_of(alloc, rows, Class::Case)?,
        controls: tally_of(alloc, rows, Class::Control)?,
    })
}

/// How many elements of a kind have the id.
pub fn called(ids: &Ids<'_>, class: Class, id: &str) -> usize
    ensures { (all : List Seen) → HasCounts ids.now all → result ≡ count_called class all id.now }
{
    match class {
        Class::Outside => count_of(&ids.all, id),
        Class::Numbered => count_of(&ids.numbered, id),
        Class::Model => count_of(&ids.models, id),
        Class::Instance => count_of(&ids.instances, id),
        Class::Bind => count_of(&ids.binds, id),
        Class::Submission => count_of(&ids.submissions, id),
        Class::Repeat => count_of(&ids.repeats, id),
        Class::Switch => count_of(&ids.switches, id),
        Class::Case => count_of(&ids.cases, id),
        Class::Control => count_of(&ids.controls, id),
    }
}
