//! An example: a form, its events, what must come of them, and what stands in the store, as files.

use crate::told::{push_puts, push_status, written};
use anyhow::Result;
use std::fs;
use xf_cli::xforms;
use xf_disk::MemoryDisk;
use xf_io::{MemorySink, ReaderSource};
use xf_store::{MemoryStore, Store};

/// No example writes more.
const ROOM: usize = 1_048_576;

/// What an example writes where it is not what must come, under its title, what it puts, and how it ends. Lines name the files of its store.
pub fn outcome(rt: &HostRuntime, title: &str, name: &str, lines: &[&str]) -> Result<String> {
    let alloc = rt.alloc();
    let mut store = MemoryStore::new(alloc, Vec::new(alloc));
    let mut text = String::new(alloc);
    write(rt, title, name, lines, &mut store, &mut text)?;
    Ok(text)
}

fn write(
    rt: &HostRuntime,
    title: &str,
    name: &str,
    lines: &[&str],
    store: &mut MemoryStore,
    text: &mut String,
) -> Result<()> {
    text.push_str(title)?;
    text.push_str("\n")?;
    let given = fill(rt, name, lines, store)?;
    let status = ran(rt, name, store, text)?;
    push_puts(text, store, given)?;
    Ok(push_status(rt.alloc(), text, status)?)
}

/// Puts the files of the store that the lines name, and counts them.
fn fill(rt: &HostRuntime, name: &str, lines: &[&str], store: &mut MemoryStore) -> Result<usize> {
    let mut given = 0usize;
    for line in lines {
        if let Some(file) = line.strip_prefix(": store ") {
            if put(rt, name, file, store)? {
                given = given.saturating_add(1);
            }
        }
    }
    Ok(given)
}

fn put(rt: &HostRuntime, name: &str, file: &str, store: &mut MemoryStore) -> Result<bool> {
    let path = format!(in rt.alloc(); "{name}/store/{file}")?;
    let bytes = fs::read(rt, path.as_str())?;
    Ok(store.put(file, &bytes).is_ok())
}

/// Runs an example, appends what it writes where that is not what must come, and answers how it ends.
fn ran(rt: &HostRuntime, name: &str, store: &mut MemoryStore, text: &mut String) -> Result<u8> {
    let alloc = rt.alloc();
    let mut out = MemorySink::new(alloc, ROOM, Vec::new(alloc))?;
    let status = ran_into(rt, name, &mut out, store)?;
    push_unless_wanted(rt, name, out.into_bytes().as_slice(), text)?;
    Ok(status)
}

fn ran_into(
    rt: &HostRuntime,
    name: &str,
    out: &mut MemorySink,
    store: &mut MemoryStore,
) -> Result<u8> {
    let alloc = rt.alloc();
    let form = format!(in alloc; "{name}/form.json")?;
    let mut form = ReaderSource::new(fs::open(rt, form.as_str())?);
    let events = format!(in alloc; "{name}/events")?;
    let mut events = ReaderSource::new(fs::open(rt, events.as_str())?);
    let words = [String::from_str(alloc, "try")?];
    let mut disk = MemoryDisk::new(alloc, &[], &[], 0, 0)?;
    Ok(xforms(alloc, &words, &mut form, &mut events, out, &mut disk, store))
}

fn push_unless_wanted(rt: &HostRuntime, name: &str, bytes: &[u8], text: &mut String) -> Result<()> {
    let path = format!(in rt.alloc(); "{name}/replies")?;
    let wanted = fs::read_to_string(rt, path.as_str())?;
    let came = written(bytes);
    if came != wanted.as_str() {
        text.push_str(came)?;
    }
    Ok(())
}
