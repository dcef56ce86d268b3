//! How many elements have each id.

ghost use Rattle.std.specs.Prelude.{◌≡◌, ◌+◌, ◌^◌, ◌<◌, ℕ, List, IfOk, OnOk, map};
ghost use Rattle.xf_form_refusals.specs.Classes.{is_called, count_called, class_of};
ghost use Rattle.xf_form_refusals.specs.Rows.{Seen, shown};
ghost use Rattle.xf_form_refusals.specs.Tally.{counted, one_where, CountsOneId};
ghost use Rattle.xf_form_refusals.specs.declared.classes.Class.TheVariants as class;
ghost use Rattle.xf_form_explain.specs.Ids.{HasCounts};

use std::alloc::{AllocError, Global};
use std::collections::HashMap;
use xf_form_refusals::{Class, Row, id_in, is_of};
use xf_form_vocabulary::Wanted;

/// How many elements of a kind have each id.
pub type Tally<'a> = HashMap<&'a str, usize>;

/// How many elements have each id: of all outside instances, and of each kind that attributes name.
#[derive(Drop)]
pub struct Ids<'a> {
    pub outside: Tally<'a>,
    pub numbered: Tally<'a>,
    pub models: Tally<'a>,
    pub instances: Tally<'a>,
    pub binds: Tally<'a>,
    pub submissions: Tally<'a>,
    pub repeats: Tally<'a>,
    pub cases: Tally<'a>,
    pub controls: Tally<'a>,
}

pub fn ids_of<'a>(alloc: Global, rows: &[Row<'a>]) -> Result<Ids<'a>, AllocError>
    ensures { IfOk result (λ ids. HasCounts ids (map shown rows.now)) }
{
    Ok(Ids {
        outside: tally_of(alloc, rows, Class::Outside)?,
        numbered: tally_of(alloc, rows, Class::Numbered)?,
        models: tally_of(alloc, rows, Class::Model)?,
        instances: tally_of(alloc, rows, Class::Instance)?,
        binds: tally_of(alloc, rows, Class::Bind)?,
        submissions: tally_of(alloc, rows, Class::Submission)?,
        repeats: tally_of(alloc, rows, Class::Repeat)?,
        cases: tally_of(alloc, rows, Class::Case)?,
        controls: tally_of(alloc, rows, Class::Control)?,
    })
}

/// How many elements outside instances have the id.
pub fn count_outside(ids: &Ids<'_>, id: &str) -> usize
    ensures { (all : List Seen) → HasCounts ids.now all → result ≡ count_called class.Outside all id.now }
{
    count_of(&ids.outside, id)
}

/// How many elements of the kind that an attribute names have the id.
pub fn count_named(ids: &Ids<'_>, wanted: Wanted, id: &str) -> usize
    ensures { (all : List Seen) → HasCounts ids.now all → result ≡ count_called (class_of wanted) all id.now }
{
    match wanted {
        Wanted::Model => count_of(&ids.models, id),
        Wanted::Instance => count_of(&ids.instances, id),
        Wanted::Bind => count_of(&ids.binds, id),
        Wanted::Submission => count_of(&ids.submissions, id),
        Wanted::Repeat => count_of(&ids.repeats, id),
        Wanted::Case => count_of(&ids.cases, id),
        Wanted::Control => count_of(&ids.controls, id),
        Wanted::Any => count_of(&ids.numbered, id),
    }
}

// How many elements of a kind have each id.
fn tally_of<'a>(alloc: Global, rows: &[Row<'a>], class: Class) -> Result<Tally<'a>, AllocError>
    ensures { IfOk result (λ tally. (id : List ℕ) → counted tally id ≡ count_called class (map shown rows.now) id) }
{
    let mut tally = HashMap::new(alloc);
    for row in rows {
        count_row(&mut tally, row, class)?;
    }
    Ok(tally)
}

// An element is counted under its id, where it is of the kind.
fn count_row<'a>(tally: &mut Tally<'a>, row: &Row<'a>, class: Class) -> Result<(), AllocError>
    requires { (id : List ℕ) → counted tally.old id + 1 < 2 ^ 64 }
    ensures { OnOk result ((id : List ℕ) → counted tally.new id ≡ counted tally.old id + one_where (is_called class id (shown row.now))) }
{
    if !is_of(class, row) {
        return Ok(());
    }
    let element = row.element;
    match id_in(element.attributes.as_slice()) {
        None => Ok(()),
        Some(id) => count(tally, id),
    }
}

fn count<'a>(tally: &mut Tally<'a>, id: &'a str) -> Result<(), AllocError>
    requires { counted tally.old id.now + 1 < 2 ^ 64 }
    ensures { OnOk result (CountsOneId tally.old tally.new id.now) }
{
    let next = count_of(tally, id) + 1;
    tally.insert(id, next)?;
    Ok(())
}

fn count_of(tally: &Tally<'_>, id: &str) -> usize
    ensures { result ≡ counted tally.now id.now }
{
    match tally.get(id) {
        Some(count) => *count,
        None => 0,
    }
}
