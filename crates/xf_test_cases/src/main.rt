//! Reads cases from standard input, runs each, and prints what it writes and how it ends.
//!
//! A case is a line `# ` with its title, a line `$ ` with its words, a line with its form and lines of events, each event without its line
//! feed; an empty line ends it. Before the form may stand lines that say of what kind the objects are:
//!
//! - `: form-fails N..`, `: events-fail N..`, `: out-fails N..`: which of their calls fail, counted from 0;
//! - `: read N`, `: take N`: so many bytes of the events are read, or taken by the sink, in one call at the most;
//! - `: fill MARK COUNT TEXT`: wherever the mark stands in the form and the events, the text stands so many times;
//! - `: form-size N`: blanks are added to the form up to so many bytes;
//! - `: blank-lines COUNT N`: the events begin with so many lines of so many blanks;
//! - `: store-fails N..`: which calls of the store fail, those by which a line of the next kind fills it counted too; it stands before these;
//! - `: store NAME TEXT`: the text stands in the store under the name;
//! - `: slots-kept`: the slots hold what the case before left in them; without it they are empty;
//! - `: slot-a N BYTE`, `: slot-b N BYTE`: the byte at a place of a slot is this one, behind the line of the slots that are kept;
//! - `: disk-calls N`: the disk takes so many calls; each one more fails.
//!
//! A title and a line `@ NAME` are an example: the form and the events are the files `NAME/form.json` and `NAME/events`, the words are `try`,
//! and what must come is `NAME/replies`. Behind it may stand lines `: store FILE`: the file `NAME/store/FILE` stands in the store under that name.
//!
//! For a case come its title, what `xforms` writes, a line `put NAME TEXT` for each put into the store, and `= ` with the number that it ends
//! with; for an example what it writes comes only where it is not what must come.
#![tactic(auto)]

mod case;
mod devices;
mod example;
mod told;

use crate::devices::Devices;
use anyhow::Result;
use std::alloc::{AllocError, Global};
use std::io;

fn main(rt: HostRuntime) -> Result<()> {
    let alloc = rt.alloc();
    let text = io::read_to_string(alloc, rt.reader())?;
    print_all(&rt, text.as_str())
}

/// Prints what comes of each case of a text.
fn print_all(rt: &HostRuntime, text: &str) -> Result<()> {
    let mut devices = Devices::new(rt.alloc());
    print_cases(rt, text, &mut devices)
}

fn print_cases(rt: &HostRuntime, text: &str, devices: &mut Devices) -> Result<()> {
    let mut lines = Vec::new(rt.alloc());
    for line in text.lines() {
        if line.is_empty() {
            print_case(rt, &lines, devices)?;
            lines.clear();
        } else {
            lines.push(line)?;
        }
    }
    Ok(())
}

fn print_case(rt: &HostRuntime, lines: &[&str], devices: &mut Devices) -> Result<()> {
    let text = written(rt, lines, devices)?;
    print!(rt; "{text}\n")?;
    Ok(())
}

/// What comes of the case that these lines are.
fn written(rt: &HostRuntime, lines: &[&str], devices: &mut Devices) -> Result<String> {
    let alloc = rt.alloc();
    let [title, second, rest @ ..] = lines else {
        return Ok(no_case(alloc)?);
    };
    if let Some(name) = second.strip_prefix("@ ") {
        return example::outcome(rt, title, name, rest);
    }
    match second.strip_prefix("$ ") {
        Some(words) => case::outcome(alloc, title, words, rest, devices),
        None => Ok(no_case(alloc)?),
    }
}

fn no_case(alloc: Global) -> Result<String, AllocError> {
    String::from_str(alloc, "no case\n")
}
