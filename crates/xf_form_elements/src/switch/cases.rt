//! The cases among what stands in an element.

ghost use Rattle.std.specs.Prelude.{◌≡◌, ◌≤◌, ◌==◌, get_or, length};
ghost use Rattle.std.specs.List.{position_or_len};
ghost use Rattle.xf_def_ui.specs.Cases.{cases_of, is_case, is_case_sort, place_of_case as case_place};
ghost use Rattle.xf_def_ui.specs.Interface.{interface_of, sort_of};
ghost use Rattle.xf_form_elements.specs.Switch.Among.{cases_among, own_case};

use crate::{element_in, parts_at};
use xf_def_syntax::{Control, ElementList, Form, Kind, Part};

/// The place of a case among those of an element, from 0: how many it has where it is none of them.
pub fn place_of_case(form: &Form, element: u32, case: u32) -> usize
    ensures { result ≡ case_place (interface_of form.now) element case }
{
    place_among(form, parts_at(form, element), case)
}

fn place_among(form: &Form, parts: &[Part], case: u32) -> usize
    ensures place { result ≡ position_or_len (λ m. m == case) (cases_among (interface_of form.now) parts.now) }
    ensures within { result ≤ length parts.now }
{
    let mut place = 0;
    for part in parts {
        let Some(one) = case_in(form, part) else {
            continue;
        };
        if one == case {
            return place;
        }
        place += 1;
    }
    place
}

/// The case at a place of the switch of this number: 0 where there is none.
pub fn case_at(form: &Form, switch: u32, place: usize) -> u32
    ensures { result ≡ get_or (cases_of (interface_of form.now) (get_or (interface_of form.now).switches switch 0)) place 0 }
{
    case_of(form, element_of(&form.switches, switch), place)
}

/// The case of an element at a place: 0 where there is none.
pub fn case_of(form: &Form, element: u32, place: usize) -> u32
    ensures { result ≡ get_or (cases_of (interface_of form.now) element) place 0 }
{
    case_among(form, parts_at(form, element), place)
}

fn element_of(switches: &ElementList, switch: u32) -> u32
    ensures { result ≡ get_or switches.now switch 0 }
{
    match switches.as_slice().get(switch as usize) {
        Some(element) => *element,
        None => 0,
    }
}

/// The case at a place among these parts: 0 where there is none.
pub(crate) fn case_among(form: &Form, parts: &[Part], place: usize) -> u32
    ensures { result ≡ get_or (cases_among (interface_of form.now) parts.now) place 0 }
{
    let mut left = place;
    for part in parts {
        let Some(one) = case_in(form, part) else {
            continue;
        };
        if left == 0 {
            return one;
        }
        left -= 1;
    }
    0
}

/// The part as a case.
pub(crate) fn case_in(form: &Form, part: &Part) -> Option<u32>
    ensures { result ≡ own_case (interface_of form.now) part.now }
{
    match part {
        Part::Text(_) => None,
        Part::Element(number) => {
            if is_case_at(form, *number) {
                Some(*number)
            } else {
                None
            }
        }
    }
}

pub(crate) fn is_case_at(form: &Form, element: u32) -> bool
    ensures { result ≡ is_case (interface_of form.now) element }
{
    match element_in(form, element) {
        Some(here) => is_case(&here.kind),
        None => false,
    }
}

fn is_case(kind: &Kind) -> bool
    ensures { result ≡ is_case_sort (sort_of kind.now) }
{
    match kind {
        Kind::Control(_, control) => match control {
            Control::Case(_) => true,
            _ => false,
        },
        _ => false,
    }
}
