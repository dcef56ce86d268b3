//! A survey of the names of a form.

ghost use Rattle.std.specs.Prelude.{◌≡◌, ◌||◌, not, map, filter_map, option_map, OnOk, IfOk};
ghost use Rattle.std.specs.List.{list_any};
ghost use Rattle.xf_base.specs.Gives.{Gives};
ghost use Rattle.xf_name.specs.Part.{kind_of};
ghost use Rattle.xf_name.specs.Written.{walk_of, walk_of_element};
ghost use Rattle.xf_name.specs.Shown.{shown_by, ShowsWalk, walk_of_all};
ghost use Rattle.xf_name.specs.Survey.{surveyed, collected};
ghost use Rattle.xf_name.specs.FirstShown.{first_shown};

use crate::fault::{NameFault, SurveyFault};
use crate::faults::name_fault;
use crate::lit::{Lit, LitElement};
use crate::prefixes::Prefixes;
use indexmap::IndexSet;
use std::alloc::{AllocError, Global};

/// The first fault of names in a form: at which element, by its place in document order from 0, and which.
#[derive(Clone, Copy, Debug, PartialEq, Eq)]
pub struct FirstFault {
    pub element: usize,
    pub fault: NameFault,
}

/// What a form declares, with its first fault. The first declaration of a prefix counts; one that is a fault declares nothing.
#[derive(Drop)]
pub struct Surveyed {
    pub prefixes: Prefixes,
    pub fault: Option<FirstFault>,
}

/// The prefixes of a form, or the first fault of its names.
pub fn collect(alloc: Global, form: &Lit) -> Result<Prefixes, NameFault>
    ensures { Gives NameFault.Memory (λ prefixes. prefixes) result (collected form.now) }
{
    match survey(alloc, form) {
        Ok(Surveyed { prefixes, fault }) => match fault {
            None => Ok(prefixes),
            Some(first) => Err(first.fault),
        },
        Err(SurveyFault::TooMany) => Err(NameFault::TooMany),
        Err(SurveyFault::Memory) => Err(NameFault::Memory),
    }
}

/// What a form declares, with the first fault of its names.
pub fn survey(alloc: Global, form: &Lit) -> Result<Surveyed, SurveyFault>
    ensures { Gives SurveyFault.Memory (λ found. found) result (surveyed form.now) }
{
    let mut elements = Vec::new(alloc);
    push_elements(form, &mut elements)?;
    let prefixes = match Prefixes::of_elements(alloc, &elements) {
        Ok(prefixes) => prefixes,
        Err(fault) => return Err(fault),
    };
    let fault = first_fault(alloc, &prefixes, &elements)?;
    Ok(Surveyed { prefixes, fault })
}

// The elements of a form in document order.
#[cycle(elements)]
fn push_elements<'a>(lit: &'a Lit, elements: &mut Vec<&'a LitElement>) -> Result<(), AllocError>
    ensures { OnOk result (ShowsWalk elements.old.items elements.new.items (walk_of lit.now)) }
{
    match lit {
        Lit::Text(_) => Ok(()),
        Lit::Element(element) => push_element(element, elements),
    }
}

#[cycle(elements)]
fn push_element<'a>(
    element: &'a LitElement,
    elements: &mut Vec<&'a LitElement>,
) -> Result<(), AllocError>
    ensures { OnOk result (ShowsWalk elements.old.items elements.new.items (walk_of_element element.now)) }
{
    elements.push(element)?;
    push_all(element.children.as_slice(), elements)
}

#[cycle(elements)]
fn push_all<'a>(lits: &'a [Lit], elements: &mut Vec<&'a LitElement>) -> Result<(), AllocError>
    ensures { OnOk result (ShowsWalk elements.old.items elements.new.items (walk_of_all lits.now)) }
{
    for lit in lits {
        push_elements(lit, elements)?;
    }
    Ok(())
}

fn first_fault(
    alloc: Global,
    prefixes: &Prefixes,
    elements: &[&LitElement],
) -> Result<Option<FirstFault>, AllocError>
    ensures { IfOk result (λ first. first ≡ first_shown prefixes.now 0 (map shown_by elements.now)) }
{
    let mut seen = IndexSet::new(alloc);
    for (at, element) in elements.iter().enumerate() {
        if let Some(fault) = name_fault(prefixes, element, &mut seen)? {
            return Ok(Some(FirstFault { element: at, fault }));
        }
    }
    Ok(None)
}
