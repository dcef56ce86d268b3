//! What is told of a run.

use std::alloc::{AllocError, Global};
use xf_store::{Asked, MemoryStore, StoreCall};

/// Appends what a run wrote.
pub fn push_written(text: &mut String, bytes: &[u8]) -> Result<(), AllocError> {
    text.push_str(written(bytes))
}

/// The text that a run wrote.
pub fn written(bytes: &[u8]) -> &str {
    str::from_utf8(bytes).unwrap_or("bytes that are no text\n")
}

/// Appends a line for each put behind so many calls.
pub fn push_puts(text: &mut String, store: &MemoryStore, given: usize) -> Result<(), AllocError> {
    let Some(calls) = store.calls() else {
        return Ok(());
    };
    for (at, call) in calls.as_slice().iter().enumerate() {
        if given <= at {
            push_put(text, call)?;
        }
    }
    Ok(())
}

fn push_put(text: &mut String, call: &StoreCall) -> Result<(), AllocError> {
    let Asked::Put(bytes) = &call.asked else {
        return Ok(());
    };
    text.push_str("put ")?;
    text.push_str(text_of(call.name.as_slice()))?;
    text.push_str(" ")?;
    text.push_str(text_of(bytes.as_slice()))?;
    text.push_str("\n")
}

fn text_of(bytes: &[u8]) -> &str {
    str::from_utf8(bytes).unwrap_or("bytes that are no text")
}

/// Appends how a run ends.
pub fn push_status(alloc: Global, text: &mut String, status: u8) -> Result<(), AllocError> {
    text.push_str(format!(in alloc; "= {status}\n")?.as_str())
}
