//! Attributes by their names.

ghost use Rattle.std.specs.Prelude.{◌≡◌, IfOk, ◌==◌, map, filter_map, option_map, slice_get};
ghost use Rattle.std.specs.List.{list_any};
ghost use Rattle.xf_table.specs.Contents.{attribute_entries};
ghost use Rattle.xf_form_vocabulary.specs.Attributes.{is_of_events, is_of_no_space, marks_in, code_in, code_of, shown, known_in, text_in};

use crate::attribute::{EVENTS, Known};
use crate::tags::is_space;
use std::alloc::{AllocError, Global};
use xf_name::{NameFault, Pair, Prefixes};
use xf_table::attributes::rows;
use xf_table::find;

const EVENTS_URI: &str = "http://www.w3.org/2001/xml-events";

/// Whether the attribute is one without a namespace.
fn is_of_no_space(marks: u8) -> bool
    ensures { result ≡ is_of_no_space marks }
{
    marks % 2 == 1
}

/// Whether the attribute is one of XML Events.
fn is_of_events(marks: u8) -> bool
    ensures { result ≡ is_of_events marks }
{
    marks / 2 % 2 == 1
}

/// The marks of the row with this code.
fn marks_of(code: u16) -> u8
    ensures { result ≡ marks_in (slice_get attribute_entries code) }
{
    match rows().get(code as usize) {
        Some(row) => row.marks,
        None => 0,
    }
}

/// The number of an attribute by its local name, with a namespace of XML Events or without one.
fn code_in(in_events: bool, local: &str) -> Option<u16>
    ensures { result ≡ code_in in_events local.now }
{
    let Some(code) = find(rows(), local) else {
        return None;
    };
    if in_events {
        if is_of_events(marks_of(code)) {
            return Some(code + EVENTS);
        }
        return None;
    }
    if is_of_no_space(marks_of(code)) {
        return Some(code);
    }
    None
}

/// The number of an attribute by its written name: none where it is not of the vocabulary.
fn code_of(prefixes: &Prefixes, written: &str) -> Result<Option<u16>, AllocError>
    ensures { IfOk result (λ code. code ≡ code_of prefixes.now written.now) }
{
    match prefixes.resolve(written, 0) {
        Ok(name) => {
            if name.space == 0 {
                return Ok(code_in(false, name.local.as_str()));
            }
            if is_space(prefixes, name.space, EVENTS_URI) {
                return Ok(code_in(true, name.local.as_str()));
            }
            Ok(None)
        }
        Err(NameFault::Memory) => Err(AllocError),
        Err(_) => Ok(None),
    }
}

/// The attributes of an element that are of the vocabulary.
pub fn known_of<'a>(
    alloc: Global,
    prefixes: &Prefixes,
    attributes: &'a [Pair],
) -> Result<Vec<Known<'a>>, AllocError>
    ensures { IfOk result (λ known. map shown known.items ≡ known_in prefixes.now attributes.now) }
{
    let mut known = Vec::new(alloc);
    for attribute in attributes {
        if let Some(code) = code_of(prefixes, attribute.name.as_str())? {
            let text = attribute.text.as_str();
            known.push(Known { code, text })?;
        }
    }
    Ok(known)
}

/// The text of an attribute.
pub fn text_of<'a>(known: &[Known<'a>], code: u16) -> Option<&'a str>
    ensures { option_map (λ text. text.now) result ≡ text_in code (map shown known.now) }
{
    for one in known {
        if one.code == code {
            return Some(one.text);
        }
    }
    None
}

/// Whether there is the attribute.
pub fn has(known: &[Known<'_>], code: u16) -> bool
    ensures { result ≡ list_any (λ k. k.0 == code) (map shown known.now) }
{
    for one in known {
        if one.code == code {
            return true;
        }
    }
    false
}
