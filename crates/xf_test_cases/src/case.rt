//! A case over memory.

use crate::devices::Devices;
use crate::told::{push_puts, push_status, push_written};
use anyhow::Result;
use std::alloc::{AllocError, Global};
use std::mem::replace;
use xf_cli::xforms;
use xf_disk::MemoryDisk;
use xf_io::{MemorySink, MemorySource};

/// No case writes more, to its sink or to a slot.
const ROOM: usize = 1_048_576;

// A way out of a function is dear to prove where the function owns much: what is large is made here, and lent to all below.

/// What a case writes, under its title, and how it ends.
pub fn outcome(
    alloc: Global,
    title: &str,
    words: &str,
    lines: &[&str],
    devices: &mut Devices,
) -> Result<String> {
    let mut text = String::new(alloc);
    write(alloc, title, words, lines, devices, &mut text)?;
    Ok(text)
}

fn write(
    alloc: Global,
    title: &str,
    words: &str,
    lines: &[&str],
    devices: &mut Devices,
    text: &mut String,
) -> Result<()> {
    devices.begin(alloc);
    devices.read(alloc, lines)?;
    text.push_str(title)?;
    text.push_str("\n")?;
    let status = ran(alloc, words, devices, text)?;
    push_puts(text, &devices.store, devices.given)?;
    Ok(push_status(alloc, text, status)?)
}

/// Runs these words, appends what the run writes, and answers how it ends.
fn ran(
    alloc: Global,
    words: &str,
    devices: &mut Devices,
    text: &mut String,
) -> Result<u8, AllocError> {
    let list = words_in(alloc, words)?;
    ran_with(alloc, list.as_slice(), devices, text)
}

fn words_in(alloc: Global, words: &str) -> Result<Vec<String>, AllocError> {
    let mut list = Vec::new(alloc);
    push_words(alloc, words, &mut list)?;
    Ok(list)
}

fn push_words(alloc: Global, words: &str, list: &mut Vec<String>) -> Result<(), AllocError> {
    for word in words.split_whitespace() {
        list.push(String::from_str(alloc, word)?)?;
    }
    Ok(())
}

fn ran_with(
    alloc: Global,
    words: &[String],
    devices: &mut Devices,
    text: &mut String,
) -> Result<u8, AllocError> {
    let mut out = sink_of(alloc, devices)?;
    let status = ran_over(alloc, words, devices, &mut out)?;
    push_written(text, out.into_bytes().as_slice())?;
    Ok(status)
}

fn ran_over(
    alloc: Global,
    words: &[String],
    devices: &mut Devices,
    out: &mut MemorySink,
) -> Result<u8, AllocError> {
    let mut disk = disk_of(alloc, devices)?;
    let status = ran_into(alloc, words, devices, &mut disk, out)?;
    devices.slots.keep(&disk)?;
    Ok(status)
}

fn ran_into(
    alloc: Global,
    words: &[String],
    devices: &mut Devices,
    disk: &mut MemoryDisk,
    out: &mut MemorySink,
) -> Result<u8, AllocError> {
    let mut form = form_of(alloc, devices)?;
    let mut events = events_of(alloc, devices);
    Ok(xforms(
        alloc,
        words,
        &mut form,
        &mut events,
        out,
        disk,
        &mut devices.store,
    ))
}

fn disk_of(alloc: Global, devices: &Devices) -> Result<MemoryDisk, AllocError> {
    let slots = &devices.slots;
    MemoryDisk::new(alloc, &slots.a, &slots.b, ROOM, devices.disk_calls)
}

fn sink_of(alloc: Global, devices: &mut Devices) -> Result<MemorySink, AllocError> {
    let fails = replace(&mut devices.out_fails, Vec::new(alloc));
    let mut out = MemorySink::new(alloc, ROOM, fails)?;
    out.take_at_most(devices.take_at_most);
    Ok(out)
}

fn form_of(alloc: Global, devices: &mut Devices) -> Result<MemorySource, AllocError> {
    let bytes = devices.form.as_bytes().to_vec(alloc)?;
    let fails = replace(&mut devices.form_fails, Vec::new(alloc));
    Ok(MemorySource::new(bytes, fails))
}

fn events_of(alloc: Global, devices: &mut Devices) -> MemorySource {
    let bytes = replace(&mut devices.events, Vec::new(alloc));
    let fails = replace(&mut devices.event_fails, Vec::new(alloc));
    let mut events = MemorySource::new(bytes, fails);
    events.read_at_most(devices.read_at_most);
    events
}
