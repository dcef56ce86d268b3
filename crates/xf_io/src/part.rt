//! A part of a line.

ghost use Rattle.std.specs.Prelude.{length, ◌≤◌};
ghost use Rattle.xf_base.specs.Limits.{line_limit};

use crate::{Bytes, Line};
use std::alloc::{AllocError, Global};
use xf_base::limits::LINE_LIMIT;

/// What has come of a line. Where it is too long, its front alone is kept.
#[derive(Drop)]
pub struct Part {
    pub kept: Bytes,
    pub long: bool,
    ghost within: { length kept ≤ line_limit },
}

impl Part {
    ghost use Rattle.std.specs.Prelude.{List, ℕ, [], OnOk};
    ghost use Rattle.xf_io.specs.Lines.{IsOpen};
    ghost use Rattle.xf_io.specs.Part.{IsPart, Grows, IsLine, IsLastLine};

    pub fn new(alloc: Global) -> Self
        ensures { IsPart [] result }
    {
        Part {
            kept: Bytes::new(alloc),
            long: false,
        }
    }

    pub fn extend(&mut self, more: &[u8]) -> Result<(), AllocError>
        requires { IsOpen more.now }
        ensures { OnOk result (Grows self.old self.new more.now) }
    {
        if self.long || more.len() > LINE_LIMIT - self.kept.len() {
            self.long = true;
            return Ok(());
        }
        self.kept.extend(more)
    }

    /// A line that a line feed ends.
    pub fn ended(self) -> Line
        ensures { (bytes : List ℕ) → IsPart bytes self → IsLine bytes result }
    {
        if self.long {
            Line::TooLong
        } else {
            Line::Text(self.kept)
        }
    }

    /// A line that the input ends, if there is one.
    pub fn last(self) -> Line
        ensures { (bytes : List ℕ) → IsPart bytes self → IsLastLine bytes result }
    {
        if self.long {
            Line::TooLong
        } else if self.kept.len() > 0 {
            Line::Text(self.kept)
        } else {
            Line::End
        }
    }
}
