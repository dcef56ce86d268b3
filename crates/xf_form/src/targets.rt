//! The elements that ids name.

ghost use Rattle.std.specs.Prelude.{◌≡◌, ℕ, List, IfOk, OnOk, is_some, map};
ghost use Rattle.xf_form_refusals.specs.Classes.{is_called};
ghost use Rattle.xf_form_refusals.specs.Rows.{Seen, shown};
ghost use Rattle.xf_form_refusals.specs.declared.classes.Class.TheVariants as class;
ghost use Rattle.xf_form.specs.Numbers as numbers;
ghost use Rattle.xf_form.specs.Plan.{found, first_or, AddsId, AreTargets};

use std::alloc::{AllocError, Global};
use std::collections::HashMap;
use xf_form_refusals::{Row, id_in, is_numbered, small};

/// The place of the element with each id.
pub type Targets<'a> = HashMap<&'a str, u32>;

/// The place of the first element with each id.
pub fn targets_of<'a>(alloc: Global, rows: &[Row<'a>]) -> Result<Targets<'a>, AllocError>
    ensures { IfOk result (λ targets. AreTargets targets (map shown rows.now)) }
{
    let mut targets = HashMap::new(alloc);
    for (place, row) in rows.iter().enumerate() {
        add_row(&mut targets, row, small(place)?)?;
    }
    Ok(targets)
}

fn add_row<'a>(targets: &mut Targets<'a>, row: &Row<'a>, place: u32) -> Result<(), AllocError>
    ensures { OnOk result ((id : List ℕ) → found targets.new id ≡ first_or (found targets.old id) (is_called class.Numbered id (shown row.now)) place) }
{
    if !is_numbered(row) {
        return Ok(());
    }
    let element = row.element;
    match id_in(element.attributes.as_slice()) {
        None => Ok(()),
        Some(id) => add_id(targets, id, place),
    }
}

// The place goes under the id, where none has it.
fn add_id<'a>(targets: &mut Targets<'a>, id: &'a str, place: u32) -> Result<(), AllocError>
    ensures { OnOk result (AddsId targets.old targets.new id.now place) }
{
    if has(targets, id) {
        return Ok(());
    }
    targets.insert(id, place)?;
    Ok(())
}

fn has(targets: &Targets<'_>, id: &str) -> bool
    ensures { result ≡ is_some (found targets.now id.now) }
{
    targets.get(id).is_some()
}

/// The place of the element with an id: 0 where there is none.
pub fn place_named(targets: &Targets<'_>, id: &str) -> u32
    ensures { (all : List Seen) → AreTargets targets.now all → result ≡ numbers.place_named all id.now }
{
    match targets.get(id) {
        Some(place) => *place,
        None => 0,
    }
}
