//! A sink of our own: each reply as a text of its own.

ghost use Rattle.std.specs.Prelude.{◌≡◌, None};

use std::alloc::{AllocError, Global};
use std::marker::Model;
use xf_io::{Failed, Sink};

/// Takes what is written into one reply until it is flushed, which a run does behind each reply. Want of memory fails the call.
#[derive(Drop)]
pub struct ReplySink {
    alloc: Global,
    replies: Vec<String>,
    begun: Vec<u8>,
    failed: u64,
}

impl Model for ReplySink {
    ghost use Rattle.std.specs.Prelude.{ℕ};

    ghost Value = { ℕ };

    ghost view = { λ s. s.failed };
}

impl ReplySink {
    pub fn new(alloc: Global) -> Self {
        ReplySink {
            alloc,
            replies: Vec::new(alloc),
            begun: Vec::new(alloc),
            failed: 0,
        }
    }

    /// The replies, in order, each with the notes before it.
    pub fn replies(&self) -> &[String] {
        &self.replies
    }

    // Makes a reply of what was written.
    fn end_reply(&mut self) -> Result<(), AllocError>
        ensures { self.new ≡ self.old }
    {
        if self.begun.is_empty() {
            return Ok(());
        }
        let text = String::from_utf8_lossy(self.alloc, &self.begun)?;
        self.replies.push(text)?;
        self.begun.clear();
        Ok(())
    }
}

impl Sink for ReplySink {
    ghost taken = { λ _. None };

    ghost flushed = { λ _. None };

    ghost faults = { λ failed. failed };

    fn write(&mut self, bytes: &[u8]) -> Result<usize, Failed> {
        match self.begun.extend_from_slice(bytes) {
            Ok(()) => Ok(bytes.len()),
            Err(_) => {
                self.failed = self.failed.saturating_add(1);
                Err(Failed)
            }
        }
    }

    fn flush(&mut self) -> Result<(), Failed> {
        match self.end_reply() {
            Ok(()) => Ok(()),
            Err(_) => {
                self.failed = self.failed.saturating_add(1);
                Err(Failed)
            }
        }
    }
}
