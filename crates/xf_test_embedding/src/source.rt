//! A source of our own: a text that the program holds.

ghost use Rattle.std.specs.Prelude.{Some};

use std::marker::Model;
use xf_io::{Failed, Source};

/// A text, which is read from its front. It tells the bytes that are left, and no read of it fails.
#[derive(Drop)]
pub struct TextSource<'a> {
    rest: &'a [u8],
}

impl<'a> Model for TextSource<'a> {
    ghost use Rattle.std.specs.Prelude.{List, ℕ};

    ghost Value = { List ℕ };

    ghost view = { λ s. s.rest.now };
}

impl<'a> TextSource<'a> {
    pub fn new(text: &'a str) -> Self {
        TextSource {
            rest: text.as_bytes(),
        }
    }
}

impl Source for TextSource<'_> {
    ghost left = { λ rest. Some rest };

    ghost faults = { λ _. 0 };

    fn read(&mut self, into: &mut [u8]) -> Result<usize, Failed> {
        let count = self.rest.len().min(into.len());
        into[..count].copy_from_slice(&self.rest[..count]);
        self.rest = &self.rest[count..];
        Ok(count)
    }
}
