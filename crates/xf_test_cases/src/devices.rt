//! The objects of a case, as its lines tell them.

use anyhow::Result;
use std::alloc::{AllocError, Global};
use std::mem::replace;
use xf_disk::{MemoryDisk, Slot};
use xf_store::{MemoryStore, Store};

/// How many calls a disk takes where no line says how many.
const DISK_CALLS: usize = 4_096;

/// The bytes of the two slots.
#[derive(Drop)]
pub struct SlotBytes {
    pub a: Vec<u8>,
    pub b: Vec<u8>,
}

/// What the objects of a run hold, and of what kind they are.
#[derive(Drop)]
pub struct Devices {
    pub form: String,
    has_form: bool,
    pub form_fails: Vec<u64>,
    pub event_fails: Vec<u64>,
    pub out_fails: Vec<u64>,
    pub read_at_most: usize,
    pub take_at_most: usize,
    form_size: usize,
    fills: Vec<Fill>,
    pub events: Vec<u8>,
    pub store: MemoryStore,
    /// How much stands in the store before the run.
    pub given: usize,
    pub slots: SlotBytes,
    /// What the case before left in the slots.
    left: SlotBytes,
    pub disk_calls: usize,
}

/// What stands for a mark in the form and the events.
#[derive(Drop)]
struct Fill {
    mark: String,
    text: String,
}

impl SlotBytes {
    fn new(alloc: Global) -> SlotBytes {
        SlotBytes {
            a: Vec::new(alloc),
            b: Vec::new(alloc),
        }
    }

    /// Takes what a disk holds.
    pub fn keep(&mut self, disk: &MemoryDisk) -> Result<(), AllocError> {
        self.a.clear();
        self.b.clear();
        self.a.extend_from_slice(disk.held(Slot::A))?;
        self.b.extend_from_slice(disk.held(Slot::B))
    }
}

impl Devices {
    /// Those of a case without a line.
    pub fn new(alloc: Global) -> Devices {
        Devices {
            form: String::new(alloc),
            has_form: false,
            form_fails: Vec::new(alloc),
            event_fails: Vec::new(alloc),
            out_fails: Vec::new(alloc),
            read_at_most: usize::MAX,
            take_at_most: usize::MAX,
            form_size: 0,
            fills: Vec::new(alloc),
            events: Vec::new(alloc),
            store: MemoryStore::new(alloc, Vec::new(alloc)),
            given: 0,
            slots: SlotBytes::new(alloc),
            left: SlotBytes::new(alloc),
            disk_calls: DISK_CALLS,
        }
    }

    /// Makes them those of the next case.
    pub fn begin(&mut self, alloc: Global) {
        let slots = replace(&mut self.slots, SlotBytes::new(alloc));
        *self = Devices::new(alloc);
        self.left = slots;
    }

    /// Takes the lines of a case behind its words.
    pub fn read(&mut self, alloc: Global, lines: &[&str]) -> Result<()> {
        for line in lines {
            self.read_line(alloc, line)?;
        }
        let blanks = " ".repeat(alloc, self.form_size.saturating_sub(self.form.len()))?;
        Ok(self.form.push_str(blanks.as_str())?)
    }

    fn read_line(&mut self, alloc: Global, line: &str) -> Result<()> {
        if let Some(told) = line.strip_prefix(": ") {
            return self.read_told(alloc, told);
        }
        let text = self.filled(alloc, line)?;
        Ok(self.push_line(text.as_str())?)
    }

    /// The first line is the form, each other one an event.
    fn push_line(&mut self, text: &str) -> Result<(), AllocError> {
        if self.has_form {
            self.events.extend_from_slice(text.as_bytes())?;
            self.events.push(b'\n')?;
            return Ok(());
        }
        self.has_form = true;
        self.form.push_str(text)
    }

    /// Takes what a line says of the objects.
    fn read_told(&mut self, alloc: Global, told: &str) -> Result<()> {
        let (name, rest) = told.split_once(' ').unwrap_or((told, ""));
        match name {
            "fill" => self.read_fill(alloc, rest),
            "slots-kept" => {
                self.slots = replace(&mut self.left, SlotBytes::new(alloc));
                Ok(())
            }
            "store" => {
                self.put(rest);
                Ok(())
            }
            _ => {
                let numbers = numbers_in(alloc, rest)?;
                self.read_numbers(alloc, name, numbers)
            }
        }
    }

    /// Fills the store, unless that call is one that fails.
    fn put(&mut self, named: &str) {
        let (name, text) = named.split_once(' ').unwrap_or((named, ""));
        if self.store.put(name, text.as_bytes()).is_ok() {
            self.given = self.given.saturating_add(1);
        }
    }

    fn read_numbers(&mut self, alloc: Global, name: &str, numbers: Vec<u64>) -> Result<()> {
        match name {
            "store-fails" => self.store = MemoryStore::new(alloc, numbers),
            "form-fails" => self.form_fails = numbers,
            "events-fail" => self.event_fails = numbers,
            "out-fails" => self.out_fails = numbers,
            _ => self.read_counts(alloc, name, &numbers)?,
        }
        Ok(())
    }

    fn read_counts(
        &mut self,
        alloc: Global,
        name: &str,
        numbers: &[u64],
    ) -> Result<(), AllocError> {
        match (name, numbers) {
            ("read", [most, ..]) => self.read_at_most = *most as usize,
            ("take", [most, ..]) => self.take_at_most = *most as usize,
            ("form-size", [size, ..]) => self.form_size = *size as usize,
            ("disk-calls", [count, ..]) => self.disk_calls = *count as usize,
            ("slot-a", [at, value]) => set(&mut self.slots.a, *at as usize, *value),
            ("slot-b", [at, value]) => set(&mut self.slots.b, *at as usize, *value),
            ("blank-lines", [count, length]) => self.push_blanks(alloc, *count, *length as usize)?,
            _ => {}
        }
        Ok(())
    }

    fn push_blanks(&mut self, alloc: Global, count: u64, length: usize) -> Result<(), AllocError> {
        let blanks = " ".repeat(alloc, length)?;
        for _line in 0..count {
            self.events.extend_from_slice(blanks.as_bytes())?;
            self.events.push(b'\n')?;
        }
        Ok(())
    }

    /// A line with what stands for the marks in it.
    fn filled(&self, alloc: Global, line: &str) -> Result<String, AllocError> {
        let mut text = String::from_str(alloc, line)?;
        for fill in &self.fills {
            text = text.replace(alloc, fill.mark.as_str(), fill.text.as_str())?;
        }
        Ok(text)
    }

    /// Takes a mark, how often the text comes for it, and the text.
    fn read_fill(&mut self, alloc: Global, line: &str) -> Result<()> {
        let Some((mark, rest)) = line.split_once(' ') else {
            return Ok(());
        };
        let Some((count, text)) = rest.split_once(' ') else {
            return Ok(());
        };
        let fill = fill_of(alloc, mark, text, count.parse::<usize>()?)?;
        Ok(self.fills.push(fill)?)
    }
}

fn set(bytes: &mut Vec<u8>, at: usize, value: u64) {
    let Ok(value) = u8::try_from(value) else {
        return;
    };
    if at < bytes.len() {
        bytes[at] = value;
    }
}

fn fill_of(alloc: Global, mark: &str, text: &str, count: usize) -> Result<Fill, AllocError> {
    Ok(Fill {
        mark: String::from_str(alloc, mark)?,
        text: text.repeat(alloc, count)?,
    })
}

fn numbers_in(alloc: Global, text: &str) -> Result<Vec<u64>> {
    let mut numbers = Vec::new(alloc);
    push_numbers(text, &mut numbers)?;
    Ok(numbers)
}

fn push_numbers(text: &str, numbers: &mut Vec<u64>) -> Result<()> {
    for word in text.split_whitespace() {
        numbers.push(word.parse::<u64>()?)?;
    }
    Ok(())
}
