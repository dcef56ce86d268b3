//! The calls of xf_json and xf_line. Bytes that may be no text are written as hexadecimal digits.

use crate::calls::{Answer, bytes_of};
use std::alloc::{AllocError, Global};
use xf_base::Items;
use xf_json::{JsonFault, print, read};
use xf_line::{Asked, Event, LineFault, read_line};
use xf_name::{Lit, LitElement, Pair, PairList, Word};

pub fn answer(alloc: Global, call: &str, given: &[Word]) -> Answer {
    match (call, given) {
        ("print", [text]) => printed(alloc, text.as_bytes()),
        ("print_bytes", [digits]) => printed_of(alloc, digits.as_str()),
        ("print_pairs", [name, pairs @ ..]) => paired(alloc, name.as_str(), pairs),
        _ => Ok(None),
    }
}

pub fn line_answer(alloc: Global, call: &str, given: &[Word]) -> Answer {
    match (call, given) {
        ("read_line", [text]) => asked(alloc, text.as_bytes()),
        ("read_line_bytes", [digits]) => asked_of(alloc, digits.as_str()),
        _ => Ok(None),
    }
}

fn printed_of(alloc: Global, digits: &str) -> Answer {
    match bytes_of(alloc, digits)? {
        Some(bytes) => printed(alloc, &bytes),
        None => Ok(None),
    }
}

fn asked_of(alloc: Global, digits: &str) -> Answer {
    match bytes_of(alloc, digits)? {
        Some(bytes) => asked(alloc, &bytes),
        None => Ok(None),
    }
}

/// The text that is printed of the tree that bytes spell.
fn printed(alloc: Global, bytes: &[u8]) -> Answer {
    match read(alloc, bytes) {
        Ok(lit) => text_of(alloc, &lit),
        Err(JsonFault::Memory) => Err(AllocError),
        Err(fault) => Ok(Some(format!(in alloc; "{fault:?}")?)),
    }
}

fn text_of(alloc: Global, lit: &Lit) -> Answer {
    match String::from_utf8(print(alloc, lit)?.into_vec()) {
        Ok(text) => Ok(Some(text)),
        Err(_) => Ok(None),
    }
}

/// An element without children, whose attributes are given as names and texts in turns.
fn paired(alloc: Global, name: &str, pairs: &[Word]) -> Answer {
    if pairs.len() % 2 != 0 {
        return Ok(None);
    }
    text_of(alloc, &Lit::Element(element_of(alloc, name, pairs)?))
}

fn element_of(alloc: Global, name: &str, pairs: &[Word]) -> Result<LitElement, AllocError> {
    let mut element = LitElement {
        name: Word::from_str(alloc, name)?,
        attributes: Items::new(alloc),
        children: Items::new(alloc),
    };
    push_pairs(alloc, &mut element.attributes, pairs)?;
    Ok(element)
}

fn push_pairs(alloc: Global, attributes: &mut PairList, pairs: &[Word]) -> Result<(), AllocError> {
    for pair in pairs.chunks(2) {
        if let [name, text] = pair {
            attributes.push(pair_of(alloc, name.as_str(), text.as_str())?)?;
        }
    }
    Ok(())
}

fn pair_of(alloc: Global, name: &str, text: &str) -> Result<Pair, AllocError> {
    Ok(Pair {
        name: Word::from_str(alloc, name)?,
        text: Word::from_str(alloc, text)?,
    })
}

/// What a line asks for, in words.
fn asked(alloc: Global, line: &[u8]) -> Answer {
    match read_line(alloc, line) {
        Ok(Asked::Event(event)) => worded(alloc, &event),
        Ok(Asked::Show) => Ok(Some(String::from_str(alloc, "show")?)),
        Err(LineFault::Memory) => Err(AllocError),
        Err(fault) => Ok(Some(fault.to_string(alloc)?)),
    }
}

fn worded(alloc: Global, event: &Event) -> Answer {
    match event {
        Event::Set(id, rows, text) => set(alloc, id.as_str(), rows.as_slice(), text.as_str()),
        Event::Activate(id, rows) => activated(alloc, id.as_str(), rows.as_slice()),
        Event::Index(id, index) => indexed(alloc, id.as_str(), *index),
        Event::Send(id) => joined(alloc, &["send", id.as_str()]),
        Event::Dispatch(name, id) => joined(alloc, &["dispatch", name.as_str(), id.as_str()]),
        Event::Reset(id) => joined(alloc, &["reset", id.as_str()]),
    }
}

fn set(alloc: Global, id: &str, rows: &[u64], text: &str) -> Answer {
    let rows = counts(alloc, rows)?;
    joined(alloc, &["set", id, rows.as_str(), text])
}

fn activated(alloc: Global, id: &str, rows: &[u64]) -> Answer {
    let rows = counts(alloc, rows)?;
    joined(alloc, &["activate", id, rows.as_str()])
}

fn indexed(alloc: Global, id: &str, index: u64) -> Answer {
    let index = index.to_string(alloc)?;
    joined(alloc, &["index", id, index.as_str()])
}

/// The numbers of rows, in brackets.
fn counts(alloc: Global, rows: &[u64]) -> Result<String, AllocError> {
    format!(in alloc; "{rows:?}")
}

/// Words with a blank between each two.
fn joined(alloc: Global, words: &[&str]) -> Answer {
    Ok(Some(words.join(alloc, " ")?))
}
