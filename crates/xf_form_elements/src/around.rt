//! What stands around an element.

ghost use Rattle.std.specs.Prelude.{◌≡◌, ◌++◌, IfOk, OnOk, filter, reverse};
ghost use Rattle.xf_def_ui.specs.Elements.{above, ancestors, element_at, repeats_around};
ghost use Rattle.xf_def_ui.specs.Interface.{interface_of, sort_of};
ghost use Rattle.xf_form_elements.specs.Around as around;

use crate::element::{element_in, parent_of};
use std::alloc::{AllocError, Global};
use xf_base::Items;
use xf_def_syntax::{Control, ElementList, Form, Kind};

/// What stands around an element, the nearest first.
pub fn ancestors(alloc: Global, form: &Form, element: u32) -> Result<ElementList, AllocError>
    ensures { IfOk result (λ all. all ≡ ancestors (interface_of form.now) element) }
{
    let mut all = Items::new(alloc);
    push_above(
        form,
        form.elements.len(),
        parent_of(form, element),
        &mut all,
    )?;
    Ok(all)
}

/// An element, and what stands around it, the nearest first.
pub fn chain(alloc: Global, form: &Form, element: u32) -> Result<ElementList, AllocError>
    ensures { IfOk result (λ all. all ≡ around.chain (interface_of form.now) element) }
{
    let mut all = Items::new(alloc);
    all.push(element)?;
    push_above(
        form,
        form.elements.len(),
        parent_of(form, element),
        &mut all,
    )?;
    Ok(all)
}

// An element, where there is one, and those around it, of which there are at most so many, go behind others.
fn push_above(
    form: &Form,
    most: usize,
    parent: Option<u32>,
    all: &mut ElementList,
) -> Result<(), AllocError>
    ensures { OnOk result (all.new ≡ all.old ++ above most (interface_of form.now) parent) }
{
    if most == 0 {
        return Ok(());
    }
    let Some(element) = parent else {
        return Ok(());
    };
    all.push(element)?;
    push_above(form, most - 1, parent_of(form, element), all)
}

// ---- containers

/// The repeats around an element, the outermost first.
pub fn repeats_around(alloc: Global, form: &Form, element: u32) -> Result<ElementList, AllocError>
    ensures { IfOk result (λ all. all ≡ repeats_around (interface_of form.now) element) }
{
    containers_around(alloc, form, Container::Repeat, element)
}

/// The switches around an element, the outermost first.
pub fn switches_around(alloc: Global, form: &Form, element: u32) -> Result<ElementList, AllocError>
    ensures { IfOk result (λ all. all ≡ around.switches_around (interface_of form.now) element) }
{
    containers_around(alloc, form, Container::Switch, element)
}

/// A sort of container.
#[derive(Clone, Copy, Debug, PartialEq, Eq)]
pub(crate) enum Container {
    Repeat,
    Switch,
}

fn containers_around(
    alloc: Global,
    form: &Form,
    sort: Container,
    element: u32,
) -> Result<ElementList, AllocError>
    ensures { IfOk result (λ all. all ≡ around.containers_around sort (interface_of form.now) element) }
{
    let mut all = Items::new(alloc);
    push_around(
        form,
        sort,
        form.elements.len(),
        parent_of(form, element),
        &mut all,
    )?;
    Ok(all)
}

// Of an element, where there is one, and those around it, of which there are at most so many, the containers go behind others.
fn push_around(
    form: &Form,
    sort: Container,
    most: usize,
    parent: Option<u32>,
    all: &mut ElementList,
) -> Result<(), AllocError>
    ensures { OnOk result (all.new ≡ all.old ++ filter (around.is_container sort (interface_of form.now)) (reverse (above most (interface_of form.now) parent))) }
{
    if most == 0 {
        return Ok(());
    }
    let Some(element) = parent else {
        return Ok(());
    };
    push_around(form, sort, most - 1, parent_of(form, element), all)?;
    push_container(form, sort, element, all)?;
    Ok(())
}

// An element goes behind others, where it is such a container.
fn push_container(
    form: &Form,
    sort: Container,
    element: u32,
    all: &mut ElementList,
) -> Result<(), AllocError>
    ensures { OnOk result (all.new ≡ all.old ++ around.one_where (around.is_container sort (interface_of form.now) element) element) }
{
    if !is_container(form, sort, element) {
        return Ok(());
    }
    all.push(element)
}

fn is_container(form: &Form, sort: Container, element: u32) -> bool
    ensures { result ≡ around.is_container sort (interface_of form.now) element }
{
    match element_in(form, element) {
        Some(here) => is_of(sort, &here.kind),
        None => false,
    }
}

fn is_of(sort: Container, kind: &Kind) -> bool
    ensures { result ≡ around.is_of sort (sort_of kind.now) }
{
    match sort {
        Container::Repeat => is_repeat(kind),
        Container::Switch => is_switch(kind),
    }
}

fn is_repeat(kind: &Kind) -> bool
    ensures { result ≡ around.is_repeat_sort (sort_of kind.now) }
{
    match kind {
        Kind::Control(_, control) => match control {
            Control::Repeat(_, _) => true,
            _ => false,
        },
        _ => false,
    }
}

fn is_switch(kind: &Kind) -> bool
    ensures { result ≡ around.is_switch_sort (sort_of kind.now) }
{
    match kind {
        Kind::Control(_, control) => match control {
            Control::Switch(_) => true,
            _ => false,
        },
        _ => false,
    }
}
