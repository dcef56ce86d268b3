//! The real streams and files, which tell no content and count each error. A call that a signal interrupts is none: it is made
//! again.

ghost use Rattle.std.specs.Prelude.{◌≡◌, None};

use crate::again::{flush_again, read_again, write_again};
use crate::{Failed, Sink, Source};
use std::io::{ErrorKind, Read, Write};
use std::marker::Model;
use std::rt::Files;
use std::{fs, io};

/// Any reader. Contracts see how often it has failed.
#[derive(Drop)]
pub struct ReaderSource<R: Read> {
    inner: R,
    failed: u64,
    why: Option<io::Error>,
}

impl<R: Read> Model for ReaderSource<R> {
    ghost use Rattle.std.specs.Prelude.{ℕ};

    ghost Value = { ℕ };

    ghost view = { λ s. s.failed };
}

impl<R: Read> ReaderSource<R> {
    pub fn new(inner: R) -> Self
        ensures { result ≡ 0 }
    {
        ReaderSource {
            inner,
            failed: 0,
            why: None,
        }
    }

    /// The error of the last read that failed.
    pub fn why(&self) -> Option<io::Error> {
        self.why
    }
}

impl<R: Read> Source for ReaderSource<R> {
    ghost left = { λ _. None };

    ghost faults = { λ failed. failed };

    fn read(&mut self, into: &mut [u8]) -> Result<usize, Failed> {
        match read_again(&mut self.inner, into) {
            Ok(count) => Ok(count),
            Err(error) => {
                self.why = Some(error);
                self.failed = self.failed.saturating_add(1);
                Err(Failed)
            }
        }
    }
}

/// A file, opened at its first read: where it cannot be opened that read fails.
#[derive(Drop)]
pub struct FileSource<'a, R: Files> {
    rt: &'a R,
    name: &'static str,
    file: Option<R::File>,
    failed: u64,
    why: Option<io::Error>,
}

impl<'a, R: Files> Model for FileSource<'a, R> {
    ghost use Rattle.std.specs.Prelude.{ℕ};

    ghost Value = { ℕ };

    ghost view = { λ s. s.failed };
}

impl<'a, R: Files> FileSource<'a, R> {
    pub fn new(rt: &'a R, name: &'static str) -> Self
        ensures { result ≡ 0 }
    {
        FileSource {
            rt,
            name,
            file: None,
            failed: 0,
            why: None,
        }
    }

    /// The error of the last read that failed, or of the opening in its place.
    pub fn why(&self) -> Option<io::Error> {
        self.why
    }
}

impl<R: Files> Source for FileSource<'_, R> {
    ghost left = { λ _. None };

    ghost faults = { λ failed. failed };

    fn read(&mut self, into: &mut [u8]) -> Result<usize, Failed> {
        if self.file.is_none() {
            match fs::open(self.rt, self.name) {
                Ok(file) => self.file = Some(file),
                Err(error) => {
                    self.why = Some(error);
                    self.failed = self.failed.saturating_add(1);
                    return Err(Failed);
                }
            }
        }
        if let Some(file) = &mut self.file {
            match read_again(file, into) {
                Ok(count) => return Ok(count),
                Err(error) => self.why = Some(error),
            }
        }
        self.failed = self.failed.saturating_add(1);
        Err(Failed)
    }
}

/// Any writer. Contracts see how often it has failed.
#[derive(Drop)]
pub struct WriterSink<W: Write> {
    inner: W,
    failed: u64,
    why: Option<io::Error>,
}

impl<W: Write> Model for WriterSink<W> {
    ghost use Rattle.std.specs.Prelude.{ℕ};

    ghost Value = { ℕ };

    ghost view = { λ s. s.failed };
}

impl<W: Write> WriterSink<W> {
    pub fn new(inner: W) -> Self
        ensures { result ≡ 0 }
    {
        WriterSink {
            inner,
            failed: 0,
            why: None,
        }
    }

    /// The error of the last write or flush that failed.
    pub fn why(&self) -> Option<io::Error> {
        self.why
    }
}

impl<W: Write> Sink for WriterSink<W> {
    ghost taken = { λ _. None };

    ghost flushed = { λ _. None };

    ghost faults = { λ failed. failed };

    fn write(&mut self, bytes: &[u8]) -> Result<usize, Failed> {
        match write_again(&mut self.inner, bytes) {
            Ok(count) => {
                if count > 0 || bytes.is_empty() {
                    return Ok(count);
                }
                self.why = Some(ErrorKind::WriteZero.into());
            }
            Err(error) => self.why = Some(error),
        }
        self.failed = self.failed.saturating_add(1);
        Err(Failed)
    }

    fn flush(&mut self) -> Result<(), Failed> {
        match flush_again(&mut self.inner) {
            Ok(()) => Ok(()),
            Err(error) => {
                self.why = Some(error);
                self.failed = self.failed.saturating_add(1);
                Err(Failed)
            }
        }
    }
}
