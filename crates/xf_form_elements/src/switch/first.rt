//! The cases that are selected at first.

ghost use Rattle.std.specs.Prelude.{◌≡◌, ◌++◌, IfOk, OnOk, find, map};
ghost use Rattle.xf_def_ui.specs.Cases as ui;
ghost use Rattle.xf_def_ui.specs.Elements.{element_at};
ghost use Rattle.xf_def_ui.specs.Interface.{interface_of, sort_of};
ghost use Rattle.xf_form_elements.specs.Switch.Among.{cases_among};

use crate::switch::cases::{case_among, case_in, place_of_case};
use crate::{element_in, parts_at};
use std::alloc::{AllocError, Global};
use xf_def_syntax::{Control, Form, Kind, Part};

/// The places of the cases that are selected at first, one for each switch.
pub fn first_cases(alloc: Global, form: &Form) -> Result<Vec<usize>, AllocError>
    ensures { IfOk result (λ cases. cases.items ≡ ui.first_cases (interface_of form.now)) }
{
    let mut cases = Vec::new(alloc);
    push_first(form, form.switches.as_slice(), &mut cases)?;
    Ok(cases)
}

/// The places for these switches go behind others.
fn push_first(form: &Form, switches: &[u32], cases: &mut Vec<usize>) -> Result<(), AllocError>
    ensures { OnOk result (cases.new.items ≡ cases.old.items ++ map (λ n. ui.place_of_case (interface_of form.now) n (ui.first_case (interface_of form.now) n)) switches.now) }
{
    for element in switches {
        cases.push(place_at_first(form, *element))?;
    }
    Ok(())
}

fn place_at_first(form: &Form, element: u32) -> usize
    ensures { result ≡ ui.place_of_case (interface_of form.now) element (ui.first_case (interface_of form.now) element) }
{
    place_of_case(form, element, first_case(form, element))
}

/// The first case of an element that is written as selected, else the first one: 0 where it has none.
fn first_case(form: &Form, element: u32) -> u32
    ensures { result ≡ ui.first_case (interface_of form.now) element }
{
    let parts = parts_at(form, element);
    match written_among(form, parts) {
        Some(case) => case,
        None => case_among(form, parts, 0),
    }
}

fn written_among(form: &Form, parts: &[Part]) -> Option<u32>
    ensures { result ≡ find (λ m. ui.is_written_selected (element_at (interface_of form.now) m).sort) (cases_among (interface_of form.now) parts.now) }
{
    for part in parts {
        let Some(case) = case_in(form, part) else {
            continue;
        };
        if is_written_selected(form, case) {
            return Some(case);
        }
    }
    None
}

fn is_written_selected(form: &Form, case: u32) -> bool
    ensures { result ≡ ui.is_written_selected (element_at (interface_of form.now) case).sort }
{
    match element_in(form, case) {
        Some(here) => is_selected(&here.kind),
        None => false,
    }
}

fn is_selected(kind: &Kind) -> bool
    ensures { result ≡ ui.is_written_selected (sort_of kind.now) }
{
    match kind {
        Kind::Control(_, control) => match control {
            Control::Case(is_selected) => *is_selected,
            _ => false,
        },
        _ => false,
    }
}
