//! Elements by their numbers.

ghost use Rattle.std.specs.Prelude.{◌≡◌, ◌++◌, get_or, IfOk, OnOk};
ghost use Rattle.xf_def_machine.specs.Choose.{switch_number as number_of_switch};
ghost use Rattle.xf_def_ui.specs.Elements.{element_at};
ghost use Rattle.xf_def_ui.specs.Interface.{interface_of, sort_of};
ghost use Rattle.xf_events.specs.Places.{places_of};

use std::alloc::{AllocError, Global};
use xf_base::Items;
use xf_def_syntax::{Control, ElementList, Form, Instance, Kind};
use xf_form_elements::element_in;

/// The id of an element: empty where it has none.
pub fn id_of(form: &Form, element: u32) -> &str
    ensures { result.now ≡ (element_at (interface_of form.now) element).id }
{
    match element_in(form, element) {
        Some(here) => here.id.as_str(),
        None => "",
    }
}

/// The element of the model of this number.
pub fn model_element(form: &Form, model: u32) -> u32
    ensures { result ≡ get_or form.now.models model 0 }
{
    number_at(&form.models, model)
}

/// The element of the submission of this number.
pub fn submission_element(form: &Form, submission: u32) -> u32
    ensures { result ≡ get_or form.now.submissions submission 0 }
{
    number_at(&form.submissions, submission)
}

/// The element of the repeat of this number.
pub fn repeat_element(form: &Form, repeat: u32) -> u32
    ensures { result ≡ get_or (interface_of form.now).repeats repeat 0 }
{
    number_at(&form.repeats, repeat)
}

/// The element of the instance at this place.
pub fn instance_element(form: &Form, instance: usize) -> u32
    ensures { result ≡ get_or form.now.instances instance 0 }
{
    number_in(&form.instances, instance)
}

/// The number of the switch that is this element: 0 where it is none.
pub fn switch_number(form: &Form, element: u32) -> u32
    ensures { result ≡ number_of_switch (element_at (interface_of form.now) element).sort }
{
    match element_in(form, element) {
        Some(here) => number_of_switch(&here.kind),
        None => 0,
    }
}

fn number_of_switch(kind: &Kind) -> u32
    ensures { result ≡ number_of_switch (sort_of kind.now) }
{
    match kind {
        Kind::Control(_, control) => match control {
            Control::Switch(number) => *number,
            _ => 0,
        },
        _ => 0,
    }
}

/// The number at a place: 0 where there is none.
fn number_at(numbers: &ElementList, at: u32) -> u32
    ensures { result ≡ get_or numbers.now at 0 }
{
    number_in(numbers, at as usize)
}

fn number_in(numbers: &ElementList, place: usize) -> u32
    ensures { result ≡ get_or numbers.now place 0 }
{
    match numbers.as_slice().get(place) {
        Some(number) => *number,
        None => 0,
    }
}

/// The instances of a model, by their places among all.
pub fn instances_at(alloc: Global, form: &Form, model: u32) -> Result<ElementList, AllocError>
    ensures { IfOk result (λ all. all ≡ places_of model 0 form.now.tables.instances) }
{
    let mut all = Items::new(alloc);
    push_instances(form.tables.instances.as_slice(), model, 0, &mut all)?;
    Ok(all)
}

/// Puts those of a model behind others, of instances of which the first has this place.
fn push_instances(
    instances: &[Instance],
    model: u32,
    place: u32,
    all: &mut ElementList,
) -> Result<(), AllocError>
    ensures { OnOk result (all.new ≡ all.old ++ places_of model place instances.now) }
{
    if instances.is_empty() {
        return Ok(());
    }
    if place == u32::MAX {
        // No memory holds so many.
        return Err(AllocError);
    }
    if instances[0].model == model {
        all.push(place)?;
    }
    push_instances(&instances[1..], model, place + 1, all)
}
