//! A disk over two files of the operating system.
ghost use Rattle.std.specs.Prelude.{◌≡◌, ◌≤◌, false, length, IfOk, string_bytes};
ghost use Rattle.xf_base.specs.Faults.{HasCause};

use crate::slot_file::{SlotFile, is_one_file};
use crate::{Disk, LockFile, Slot, Why};
use std::alloc::{AllocError, Global};
use std::fs::{Metadata, TryLockError};
use std::io;
use std::io::ErrorKind;
use std::marker::Model;
use std::os::unix::fs::FileExt;
use std::rt::Files;
use xf_io::Failed;

/// Two files. The first call opens both: it makes those that are not there, and locks the first until the disk is dropped, so that
/// one program at a time writes them. It fails, and has written nothing, where another program has the lock, where one of the two is
/// no plain file, and where both are one. A sync is one of a file's data, and the first also one of its folder.
///
/// A disk that reads alone makes nothing: a file that is not there is as an empty one, and a write fails. It shares the lock with
/// others that read.
///
/// The disk counts each error, and tells no content.
#[derive(Drop)]
pub struct FileDisk<'a, R: Files> {
    files: &'a R,
    a: SlotFile<R>,
    b: SlotFile<R>,
    reads_alone: bool,
    is_open: bool,
    faults: u64,
    why: Option<Why>,
    unlocked: Option<io::Error>,
}

impl<'a, R: Files> Model for FileDisk<'a, R> {
    ghost use Rattle.std.specs.Prelude.{string_bytes};
    ghost use Rattle.xf_disk.specs.File.{TwoFiles};

    ghost Value = { TwoFiles };

    ghost view = { λ d. record { a = d.a; b = d.b; faults = d.faults } };
}

impl<'a, R: Files> FileDisk<'a, R>
where
    R::File: FileExt + LockFile,
{
    /// A disk over the files with these paths. It takes the room for the paths, and opens nothing.
    pub fn new(alloc: Global, files: &'a R, a: &str, b: &str) -> Result<FileDisk<'a, R>, AllocError>
        ensures { IfOk result (λ disk. disk ≡ record { a = a.now; b = b.now; faults = 0 }) }
    {
        FileDisk::over(alloc, files, a, b, false)
    }

    /// A disk that reads alone.
    pub fn to_read(
        alloc: Global,
        files: &'a R,
        a: &str,
        b: &str,
    ) -> Result<FileDisk<'a, R>, AllocError>
        ensures { IfOk result (λ disk. disk ≡ record { a = a.now; b = b.now; faults = 0 }) }
    {
        FileDisk::over(alloc, files, a, b, true)
    }

    fn over(
        alloc: Global,
        files: &'a R,
        a: &str,
        b: &str,
        reads_alone: bool,
    ) -> Result<FileDisk<'a, R>, AllocError>
        ensures { IfOk result (λ disk. disk ≡ record { a = a.now; b = b.now; faults = 0 }) }
    {
        Ok(FileDisk {
            files,
            a: SlotFile::new(alloc, a)?,
            b: SlotFile::new(alloc, b)?,
            reads_alone,
            is_open: false,
            faults: 0,
            why: None,
            unlocked: None,
        })
    }

    /// Why the last call that failed did.
    pub fn why(&self) -> Option<Why> {
        self.why
    }

    /// The error with which the system refused to lock at all: the disk is then open without a lock.
    pub fn unlocked(&self) -> Option<io::Error> {
        self.unlocked
    }

    /// Opens both files, unless they are open.
    fn begin(&mut self) -> Result<(), Why>
        ensures { self.new ≡ self.old }
    {
        if self.is_open {
            return Ok(());
        }
        let a = told(Slot::A, "open", self.a.look(self.files))?;
        let b = told(Slot::B, "open", self.b.look(self.files))?;
        told(Slot::B, "open", tell_apart(a, b))?;
        let opened = self.open(Slot::A);
        told(Slot::A, "open", opened)?;
        let locked = self.lock();
        told(Slot::A, "lock", locked)?;
        let opened = self.open(Slot::B);
        told(Slot::B, "open", opened)?;
        // a link that led nowhere may lead to the file that was made
        let a = told(Slot::A, "open", self.a.about())?;
        let b = told(Slot::B, "open", self.b.about())?;
        told(Slot::B, "open", tell_apart(a, b))?;
        self.is_open = true;
        Ok(())
    }

    fn open(&mut self, slot: Slot) -> io::Result<()>
        ensures { self.new ≡ self.old }
    {
        match (slot, self.reads_alone) {
            (Slot::A, true) => self.a.open_to_read(self.files),
            (Slot::A, false) => self.a.open(self.files),
            (Slot::B, true) => self.b.open_to_read(self.files),
            (Slot::B, false) => self.b.open(self.files),
        }
    }

    /// Locks the first file, where it is there and the system has locks.
    fn lock(&mut self) -> io::Result<()>
        ensures { self.new ≡ self.old }
    {
        if let Some(file) = &self.a.file {
            match file.try_lock_as(self.reads_alone) {
                Ok(()) => {}
                Err(TryLockError::WouldBlock) => {
                    return Err(io::Error::new(ErrorKind::WouldBlock, "another program has it"));
                }
                Err(TryLockError::Error(error)) => self.unlocked = Some(error),
            }
        }
        Ok(())
    }

    fn len_of(&mut self, slot: Slot) -> Result<u64, Why>
        ensures { self.new ≡ self.old }
    {
        self.begin()?;
        let answer = match slot {
            Slot::A => self.a.len(),
            Slot::B => self.b.len(),
        };
        told(slot, "length", answer)
    }

    fn read_of(&mut self, slot: Slot, at: u64, into: &mut [u8]) -> Result<usize, Why>
        ensures same { self.new ≡ self.old }
        ensures within { IfOk result (λ count. count ≤ length into.old) }
    {
        self.begin()?;
        let answer = match slot {
            Slot::A => self.a.read(at, into),
            Slot::B => self.b.read(at, into),
        };
        told(slot, "read", answer)
    }

    fn write_to(&mut self, slot: Slot, at: u64, bytes: &[u8]) -> Result<(), Why>
        ensures { self.new ≡ self.old }
    {
        self.begin()?;
        if self.reads_alone {
            return told(slot, "write", Err(ErrorKind::PermissionDenied.into()));
        }
        let answer = match slot {
            Slot::A => self.a.write(at, bytes),
            Slot::B => self.b.write(at, bytes),
        };
        told(slot, "write", answer)
    }

    fn sync_of(&mut self, slot: Slot) -> Result<(), Why>
        ensures { self.new ≡ self.old }
    {
        self.begin()?;
        let answer = match slot {
            Slot::A => self.a.sync(self.files),
            Slot::B => self.b.sync(self.files),
        };
        told(slot, "sync", answer)
    }

    /// Counts an error, which is then a fault of the disk.
    fn counted<T: Drop>(&mut self, answer: Result<T, Why>) -> Result<T, Failed>
        ensures value { IfOk result (λ value. answer ≡ Ok value) }
        ensures cause { HasCause self.old.faults self.new.faults result }
    {
        match answer {
            Ok(value) => Ok(value),
            Err(why) => {
                self.why = Some(why);
                self.faults = self.faults.saturating_add(1);
                Err(Failed)
            }
        }
    }
}

impl<R: Files> Disk for FileDisk<'_, R>
where
    R::File: FileExt + LockFile,
{
    ghost use Rattle.xf_disk.specs.Image.{nothing};
    ghost use Rattle.xf_disk.specs.Laws.{untold};

    ghost tells = { λ _. false };

    ghost seen = { λ _. nothing };

    ghost may_leave = { λ _ _. ⊥ };

    ghost moment = { λ _. 0 };

    ghost left_since = { λ _ _ _. ⊥ };

    ghost faults = { λ disk. disk.faults };

    ghost counts_now = { λ _ _ _ _ left. left };

    ghost only_now = { λ _ _ left. left };

    ghost seen_may_stand = { λ _ told. untold told };

    fn len(&mut self, slot: Slot) -> Result<u64, Failed> {
        let answer = self.len_of(slot);
        self.counted(answer)
    }

    fn read(&mut self, slot: Slot, at: u64, into: &mut [u8]) -> Result<usize, Failed> {
        let answer = self.read_of(slot, at, into);
        self.counted(answer)
    }

    fn write(&mut self, slot: Slot, at: u64, bytes: &[u8]) -> Result<(), Failed> {
        let answer = self.write_to(slot, at, bytes);
        self.counted(answer)
    }

    fn sync(&mut self, slot: Slot) -> Result<(), Failed> {
        let answer = self.sync_of(slot);
        self.counted(answer)
    }
}

/// An answer, or why there is none.
fn told<T: Drop>(slot: Slot, call: &'static str, answer: io::Result<T>) -> Result<T, Why>
    ensures { IfOk result (λ value. answer ≡ Ok value) }
{
    match answer {
        Ok(value) => Ok(value),
        Err(error) => Err(Why { slot, call, error }),
    }
}

/// Refuses two files that are one.
fn tell_apart(a: Option<Metadata>, b: Option<Metadata>) -> io::Result<()> {
    if let (Some(a), Some(b)) = (&a, &b) {
        if is_one_file(a, b) {
            return Err(io::Error::new(ErrorKind::InvalidInput, "both slots are this one file"));
        }
    }
    Ok(())
}
