//! The handlers of the events of one name (XML Events, section 3): gathered once for an event, they are all that each of its stops looks at.

ghost use Rattle.std.specs.Prelude.{◌≡◌, ◌++◌, IfOk, OnOk, bytes_eq, map};
ghost use Rattle.xf_def_syntax.specs.declared.form.Tables.{Tables};
ghost use Rattle.xf_def_ui.specs.Interface.{sort_of};
ghost use Rattle.xf_events.specs.Handlers.{one_where};
ghost use Rattle.xf_events.specs.Listeners.{named_from, named_in, seen_listener};

use std::alloc::{AllocError, Global};
use xf_def_syntax::{Element, Handler, Kind};

/// A handler, with its element.
#[derive(Clone, Copy)]
pub(crate) struct Listener<'a> {
    pub element: u32,
    pub handler: &'a Handler,
}

/// The handlers of events of this name among all elements of a form, in document order.
pub(crate) fn listeners_among<'a>(
    alloc: Global,
    elements: &'a [Element],
    name: &str,
) -> Result<Vec<Listener<'a>>, AllocError>
    ensures { IfOk result (λ all. (tables : Tables) → map seen_listener all.items ≡ named_from name.now 0 tables elements.now) }
{
    let mut all = Vec::new(alloc);
    let mut number = 0;
    for element in elements {
        push_named(element, number, name, &mut all)?;
        if number == u32::MAX {
            // No form has so many elements.
            return Err(AllocError);
        }
        number += 1;
    }
    Ok(all)
}

fn push_named<'a>(
    element: &'a Element,
    number: u32,
    name: &str,
    all: &mut Vec<Listener<'a>>,
) -> Result<(), AllocError>
    ensures { OnOk result (map seen_listener all.new.items ≡ map seen_listener all.old.items ++ named_in name.now number (sort_of element.now.kind)) }
{
    match &element.kind {
        Kind::Action(action) => match &action.handler {
            Some(handler) => push_handler(handler, number, name, all),
            None => Ok(()),
        },
        _ => Ok(()),
    }
}

fn push_handler<'a>(
    handler: &'a Handler,
    number: u32,
    name: &str,
    all: &mut Vec<Listener<'a>>,
) -> Result<(), AllocError>
    ensures { OnOk result (map seen_listener all.new.items ≡ map seen_listener all.old.items ++ one_where (bytes_eq handler.now.event name.now) (number, handler.now)) }
{
    if handler.event.is(name) {
        all.push(Listener {
            element: number,
            handler,
        })?;
    }
    Ok(())
}
