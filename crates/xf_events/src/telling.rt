//! Events as they are made.

ghost use Rattle.std.specs.Prelude.{◌≡◌, true, [], IfOk};
ghost use Rattle.std.specs.List.{list_any};
ghost use Rattle.std.specs.Str.{bytes_eq};
ghost use Rattle.xf_def_machine.specs.Events as events;
ghost use Rattle.xf_actions.specs.Seen.{fired_of, told_of};
ghost use Rattle.xf_events.specs.Telling.{texts};

use std::alloc::{AllocError, Global};
use xf_actions::{Fired, PropertyList};
use xf_base::Items;
use xf_def_forest::NodeList;
use xf_eval::append;
use xf_name::Word;

/// An event to the copy of an element in these rows, without properties. Whether it bubbles and can be cancelled counts where its name is not known.
pub fn event(
    alloc: Global,
    name: &str,
    bubbles: bool,
    is_cancelable: bool,
    target: u32,
    rows: &NodeList,
) -> Result<Fired, AllocError>
    ensures { IfOk result (λ e. fired_of e ≡ events.fired name.now bubbles is_cancelable [] target rows.now) }
{
    let none = Items::new(alloc);
    made(alloc, name, bubbles, is_cancelable, target, rows, none)
}

/// An event to the copy of a model, an instance or a submission in these rows.
pub fn event_at(
    alloc: Global,
    name: &str,
    target: u32,
    rows: &NodeList,
) -> Result<Fired, AllocError>
    ensures { IfOk result (λ e. fired_of e ≡ events.fired name.now true true [] target rows.now) }
{
    event(alloc, name, true, true, target, rows)
}

/// An event with these properties.
pub fn made(
    alloc: Global,
    name: &str,
    bubbles: bool,
    is_cancelable: bool,
    target: u32,
    rows: &NodeList,
    properties: PropertyList,
) -> Result<Fired, AllocError>
    ensures { IfOk result (λ e. fired_of e ≡ events.fired name.now bubbles is_cancelable (told_of properties) target rows.now) }
{
    let mut own = NodeList::new(alloc);
    append(&mut own, rows)?;
    Ok(Fired {
        name: Word::from_str(alloc, name)?,
        target,
        rows: own,
        bubbles: bubbles_if(name, bubbles),
        is_cancelable: can_be_cancelled(name, is_cancelable),
        properties,
    })
}

fn can_be_cancelled(name: &str, written: bool) -> bool
    ensures { result ≡ events.can_be_cancelled name.now written }
{
    if is_cancelable_name(name) {
        return true;
    }
    if is_other_name(name) {
        return false;
    }
    written
}

fn bubbles_if(name: &str, written: bool) -> bool
    ensures { result ≡ events.bubbles_if name.now written }
{
    if is_cancelable_name(name) {
        return true;
    }
    if is_other_name(name) {
        return true;
    }
    written
}

fn is_cancelable_name(name: &str) -> bool
    ensures { result ≡ events.is_named events.cancelable_names name.now }
{
    let names = [
        "DOMActivate",
        "xforms-rebuild",
        "xforms-recalculate",
        "xforms-revalidate",
        "xforms-refresh",
        "xforms-reset",
        "xforms-submit",
    ];
    is_among(&names, name)
}

fn is_other_name(name: &str) -> bool
    ensures { result ≡ events.is_named events.other_names name.now }
{
    let names = [
        "xforms-submit-done",
        "xforms-submit-error",
        "xforms-insert",
        "xforms-delete",
        "xforms-value-changed",
        "xforms-valid",
        "xforms-invalid",
        "xforms-readonly",
        "xforms-readwrite",
        "xforms-required",
        "xforms-optional",
        "xforms-enabled",
        "xforms-disabled",
        "xforms-select",
        "xforms-deselect",
        "xforms-model-construct",
        "xforms-model-construct-done",
        "xforms-ready",
    ];
    is_among(&names, name)
}

fn is_among(names: &[&str], name: &str) -> bool
    ensures { result ≡ list_any (bytes_eq name.now) (texts names.now) }
{
    if names.is_empty() {
        return false;
    }
    if name == names[0] {
        return true;
    }
    is_among(&names[1..], name)
}
