//! The elements that ids name.

ghost use Rattle.std.specs.Prelude.{◌≡◌, ℕ, List, IfOk, OnOk, is_some, map};
ghost use Rattle.xf_def_syntax.specs.declared.form.Tables.{Tables};
ghost use Rattle.xf_def_ui.specs.Interface as ui;
ghost use Rattle.xf_form_elements.specs.Names as names;

use crate::element::number_at;
use std::alloc::{AllocError, Global};
use std::collections::HashMap;
use xf_def_syntax::{Element, Form};

/// The first element with each id.
pub type Names<'a> = HashMap<&'a str, u32>;

/// The first element with each id. It is made once, and then each is found in constant time.
pub fn names_of<'a>(alloc: Global, form: &'a Form) -> Result<Names<'a>, AllocError>
    ensures { IfOk result (λ all. names.AreNames all (ui.interface_of form.now)) }
{
    names_among(alloc, form.elements.as_slice())
}

fn names_among<'a>(alloc: Global, elements: &'a [Element]) -> Result<Names<'a>, AllocError>
    ensures { IfOk result (λ all. (tables : Tables) (id : List ℕ) → names.found all id ≡ names.named_from id 0 (map (ui.element_of tables) elements.now)) }
{
    let mut all = HashMap::new(alloc);
    for (place, element) in elements.iter().enumerate() {
        add_element(&mut all, element, number_at(place)?)?;
    }
    Ok(all)
}

fn add_element<'a>(all: &mut Names<'a>, element: &'a Element, number: u32) -> Result<(), AllocError>
    ensures { OnOk result ((id : List ℕ) → names.found all.new id ≡ names.first_or (names.found all.old id) (names.is_named id element.now.id) number) }
{
    if element.id.is_empty() {
        return Ok(());
    }
    add_id(all, element.id.as_str(), number)
}

// The number goes under the id, where none has it.
fn add_id<'a>(all: &mut Names<'a>, id: &'a str, number: u32) -> Result<(), AllocError>
    ensures { OnOk result (names.AddsId all.old all.new id.now number) }
{
    if has(all, id) {
        return Ok(());
    }
    all.insert(id, number)?;
    Ok(())
}

fn has(all: &Names<'_>, id: &str) -> bool
    ensures { result ≡ is_some (names.found all.now id.now) }
{
    all.get(id).is_some()
}

/// The first element with an id. An empty id names none.
pub fn element_named(all: &Names<'_>, id: &str) -> Option<u32>
    ensures { (interface : ui.Interface) → names.AreNames all.now interface → result ≡ names.element_named interface id.now }
{
    all.get(id).copied()
}
