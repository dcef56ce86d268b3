//! One file of a disk.
ghost use Rattle.std.specs.Prelude.{◌≡◌, ◌≤◌, length, IfOk, string_bytes};
ghost use Rattle.std.specs.Io.{ReadsAtMost};

use std::alloc::{AllocError, Global};
use std::fs::{Metadata, OpenFile, OpenOptions};
use std::io::ErrorKind;
use std::marker::Model;
use std::os::unix::fs::{FileExt, MetadataExt};
use std::rt::Files;
use std::{fs, io};
use xf_io::sync_folder_of;

// How often a read that a signal interrupts is made at the most: longer than any run lasts.
const MOST_TRIES: u64 = u64::MAX;

/// One file, with its path.
#[derive(Drop)]
pub(crate) struct SlotFile<R: Files> {
    path: String,
    /// The file once it is opened. None then is a file that is not there, which is as an empty one, and is read alone.
    pub(crate) file: Option<R::File>,
    /// Whether its folder needs no sync: it was synced since the file was opened, or nothing is written. A file that was made a moment
    /// before, by this process or by one that was stopped, may have no durable name yet.
    is_named: bool,
}

impl<R: Files> Model for SlotFile<R> {
    ghost use Rattle.std.specs.Prelude.{List, ℕ, string_bytes};

    ghost Value = { List ℕ };

    ghost view = { λ f. string_bytes f.path };
}

impl<R: Files> SlotFile<R>
where
    R::File: FileExt,
{
    pub(crate) fn new(alloc: Global, path: &str) -> Result<SlotFile<R>, AllocError>
        ensures { IfOk result (λ file. file ≡ path.now) }
    {
        Ok(SlotFile {
            path: String::from_str(alloc, path)?,
            file: None,
            is_named: false,
        })
    }

    /// What is known of the file, or None where there is none. It is refused where it is no plain file: one of those may never open.
    pub(crate) fn look(&self, files: &R) -> io::Result<Option<Metadata>> {
        match fs::metadata(files, self.path.as_str()) {
            Ok(about) => {
                if !about.is_file() {
                    return Err(io::Error::new(ErrorKind::InvalidInput, "it is no plain file"));
                }
                Ok(Some(about))
            }
            Err(error) => {
                if error.kind() == ErrorKind::NotFound {
                    return Ok(None);
                }
                Err(error)
            }
        }
    }

    /// Opens the file, and makes it where there is none.
    pub(crate) fn open(&mut self, files: &R) -> io::Result<()>
        ensures { self.new ≡ self.old }
    {
        let file = OpenOptions::new()
            .read(true)
            .write(true)
            .create(true)
            .open(files, self.path.as_str())?;
        self.file = Some(file);
        Ok(())
    }

    /// Opens the file to read alone, where there is one.
    pub(crate) fn open_to_read(&mut self, files: &R) -> io::Result<()>
        ensures { self.new ≡ self.old }
    {
        self.is_named = true;
        match fs::open(files, self.path.as_str()) {
            Ok(file) => {
                self.file = Some(file);
                Ok(())
            }
            Err(error) => {
                if error.kind() == ErrorKind::NotFound {
                    return Ok(());
                }
                Err(error)
            }
        }
    }

    /// What is known of the file that is open.
    pub(crate) fn about(&self) -> io::Result<Option<Metadata>> {
        match &self.file {
            Some(file) => Ok(Some(file.metadata()?)),
            None => Ok(None),
        }
    }

    pub(crate) fn len(&self) -> io::Result<u64> {
        match &self.file {
            Some(file) => Ok(file.metadata()?.len()),
            None => Ok(0),
        }
    }

    pub(crate) fn read(&self, at: u64, into: &mut [u8]) -> io::Result<usize>
        ensures { IfOk result (λ count. count ≤ length into.old) }
    {
        let Some(file) = &self.file else {
            return Ok(0);
        };
        let mut count = 0;
        while count < into.len() {
            let got = read_again(file, &mut into[count..], at.saturating_add(count as u64))?;
            if got == 0 {
                break;
            }
            count += got;
        }
        Ok(count)
    }

    pub(crate) fn write(&self, at: u64, bytes: &[u8]) -> io::Result<()> {
        match &self.file {
            Some(file) => file.write_all_at(bytes, at),
            None => Err(ErrorKind::NotFound.into()),
        }
    }

    pub(crate) fn sync(&mut self, files: &R) -> io::Result<()>
        ensures { self.new ≡ self.old }
    {
        if let Some(file) = &self.file {
            file.sync_data()?;
        }
        if !self.is_named {
            sync_folder_of(files, self.path.as_str())?;
            self.is_named = true;
        }
        Ok(())
    }
}

/// Whether these are of one file, by its device and its number there. Where that is not told they are of two.
pub(crate) fn is_one_file(a: &Metadata, b: &Metadata) -> bool {
    a.ino() != 0 && a.ino() == b.ino() && a.dev() == b.dev()
}

// Reads into the front of the buffer what stands at an offset.
fn read_again<F: FileExt>(file: &F, into: &mut [u8], at: u64) -> io::Result<usize>
    ensures { ReadsAtMost result into.new }
{
    for _ in 0..MOST_TRIES {
        match file.read_at(into, at) {
            Ok(count) => return Ok(count),
            Err(error) => {
                if error.kind() != ErrorKind::Interrupted {
                    return Err(error);
                }
            }
        }
    }
    Err(ErrorKind::Interrupted.into())
}
