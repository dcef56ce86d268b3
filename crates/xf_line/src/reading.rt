//! Reading a line.

ghost use Rattle.std.specs.Prelude.{◌≡◌, IfOk};
ghost use Rattle.serde_json.specs.View.{view, items_view};
ghost use Rattle.xf_base.specs.Gives.{Gives};
ghost use Rattle.xf_line.specs.Line.{rows_in, set_in, activate_in, index_in, send_in, dispatch_in, reset_in, show_in, is_event_name, event_in, asked_in, asked_of, asked_by};

use crate::event::{Asked, Event, RowList};
use crate::fault::LineFault;
use serde_json::Value;
use std::alloc::{AllocError, Global};
use xf_base::Items;
use xf_base::limits::EVENT_NAME_LIMIT;
use xf_json::{JsonFault, value_of};
use xf_name::Word;

/// What a line asks for, without the line feed that ends it. It may have any length.
///
/// `NotJson` and `NotEvent` say that it asks for nothing, `Memory` that it may be read again.
#[tactic(auto, unfolding(crate::specs::Line::asked_by))]
pub fn read_line(alloc: Global, bytes: &[u8]) -> Result<Asked, LineFault>
    ensures { Gives LineFault.Memory (λ x. x) result (asked_by bytes.now) }
{
    let value = match value_of(alloc, bytes) {
        Ok(value) => value,
        Err(JsonFault::Memory) => return Err(LineFault::Memory),
        Err(_) => return Err(LineFault::NotJson),
    };
    match asked_of(alloc, &value)? {
        Some(asked) => Ok(asked),
        None => Err(LineFault::NotEvent),
    }
}

fn asked_of(alloc: Global, value: &Value) -> Result<Option<Asked>, AllocError>
    ensures { IfOk result (λ asked. asked ≡ asked_of (view value.now)) }
{
    let Some(items) = value.as_array() else {
        return Ok(None);
    };
    let [word, rest @ ..] = items.as_slice() else {
        return Ok(None);
    };
    match word.as_str() {
        Some(word) => asked_in(alloc, word, rest),
        None => Ok(None),
    }
}

// What a word and what stands behind it ask for.
fn asked_in(alloc: Global, word: &str, rest: &[Value]) -> Result<Option<Asked>, AllocError>
    ensures { IfOk result (λ asked. asked ≡ asked_in word.now (items_view rest.now)) }
{
    if word == "show" {
        return Ok(show_in(rest));
    }
    Ok(event_in(alloc, word, rest)?.map(Asked::Event))
}

// Nothing stands behind the word.
fn show_in(rest: &[Value]) -> Option<Asked>
    ensures { result ≡ show_in (items_view rest.now) }
{
    match rest {
        [] => Some(Asked::Show),
        _ => None,
    }
}

fn event_in(alloc: Global, word: &str, rest: &[Value]) -> Result<Option<Event>, AllocError>
    ensures { IfOk result (λ event. event ≡ event_in word.now (items_view rest.now)) }
{
    match word {
        "set" => set_in(alloc, rest),
        "activate" => activate_in(alloc, rest),
        "index" => index_in(alloc, rest),
        "send" => send_in(alloc, rest),
        "dispatch" => dispatch_in(alloc, rest),
        "reset" => reset_in(alloc, rest),
        _ => Ok(None),
    }
}

// An id, rows and a text.
fn set_in(alloc: Global, rest: &[Value]) -> Result<Option<Event>, AllocError>
    ensures { IfOk result (λ event. event ≡ set_in (items_view rest.now)) }
{
    let [id, rows, text] = rest else {
        return Ok(None);
    };
    let (Some(id), Some(rows), Some(text)) = (id.as_str(), rows.as_array(), text.as_str()) else {
        return Ok(None);
    };
    match rows_in(alloc, rows)? {
        Some(rows) => Ok(Some(Event::Set(
            Word::from_str(alloc, id)?,
            rows,
            Word::from_str(alloc, text)?,
        ))),
        None => Ok(None),
    }
}

// An id and rows.
fn activate_in(alloc: Global, rest: &[Value]) -> Result<Option<Event>, AllocError>
    ensures { IfOk result (λ event. event ≡ activate_in (items_view rest.now)) }
{
    let [id, rows] = rest else {
        return Ok(None);
    };
    let (Some(id), Some(rows)) = (id.as_str(), rows.as_array()) else {
        return Ok(None);
    };
    match rows_in(alloc, rows)? {
        Some(rows) => Ok(Some(Event::Activate(Word::from_str(alloc, id)?, rows))),
        None => Ok(None),
    }
}

// An id and a number.
fn index_in(alloc: Global, rest: &[Value]) -> Result<Option<Event>, AllocError>
    ensures { IfOk result (λ event. event ≡ index_in (items_view rest.now)) }
{
    let [id, index] = rest else {
        return Ok(None);
    };
    let (Some(id), Some(index)) = (id.as_str(), index.as_u64()) else {
        return Ok(None);
    };
    Ok(Some(Event::Index(Word::from_str(alloc, id)?, index)))
}

// An id.
fn send_in(alloc: Global, rest: &[Value]) -> Result<Option<Event>, AllocError>
    ensures { IfOk result (λ event. event ≡ send_in (items_view rest.now)) }
{
    let [id] = rest else {
        return Ok(None);
    };
    match id.as_str() {
        Some(id) => Ok(Some(Event::Send(Word::from_str(alloc, id)?))),
        None => Ok(None),
    }
}

// The name of an event, and an id.
fn dispatch_in(alloc: Global, rest: &[Value]) -> Result<Option<Event>, AllocError>
    ensures { IfOk result (λ event. event ≡ dispatch_in (items_view rest.now)) }
{
    let [name, id] = rest else {
        return Ok(None);
    };
    let (Some(name), Some(id)) = (name.as_str(), id.as_str()) else {
        return Ok(None);
    };
    if !is_event_name(name) {
        return Ok(None);
    }
    Ok(Some(Event::Dispatch(Word::from_str(alloc, name)?, Word::from_str(alloc, id)?)))
}

fn is_event_name(name: &str) -> bool
    ensures { result ≡ is_event_name name.now }
{
    1 <= name.len() && name.len() <= EVENT_NAME_LIMIT
}

// An id.
fn reset_in(alloc: Global, rest: &[Value]) -> Result<Option<Event>, AllocError>
    ensures { IfOk result (λ event. event ≡ reset_in (items_view rest.now)) }
{
    let [id] = rest else {
        return Ok(None);
    };
    match id.as_str() {
        Some(id) => Ok(Some(Event::Reset(Word::from_str(alloc, id)?))),
        None => Ok(None),
    }
}

// Whole numbers, if all of the values are.
fn rows_in(alloc: Global, values: &[Value]) -> Result<Option<RowList>, AllocError>
    ensures { IfOk result (λ rows. rows ≡ rows_in (items_view values.now)) }
{
    let mut rows = Items::new(alloc);
    for value in values {
        match value.as_u64() {
            Some(row) => rows.push(row)?,
            None => return Ok(None),
        }
    }
    Ok(Some(rows))
}
