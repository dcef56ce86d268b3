//! A store over one folder of the operating system.
ghost use Rattle.std.specs.Prelude.{◌≡◌, ◌≤◌, None, length, IfOk};

use crate::fault::counted;
use crate::{GetFault, Got, Store};
use std::alloc::{AllocError, Global};
use std::fs::{OpenFile, OpenOptions};
use std::io::{ErrorKind, Read, Write};
use std::marker::Model;
use std::rt::Files;
use std::{fs, io};
use xf_base::limits::{FOUND_LIMIT, STORE_NAME_LIMIT};
use xf_io::{Bytes, Failed, read_again, sync_folder_of};

/// A folder whose files are the named bytes. A put makes a file of another name, which no name here may have, and renames it, so
/// that a resource is made whole or not at all; it makes the folder where there is none. What stands under that other name is
/// removed first, and never written to: a link there leads nowhere. Of a put that fails nothing is left.
/// The names of the file and of the folder are durable after a put. A get reads a plain file, or the one that a link leads to; one
/// of anything else fails at once, since the opening of a fifo may never end. The caller tries the names. The store counts each
/// error, and tells no content.
#[derive(Drop)]
pub struct FolderStore<'a, R: Files> {
    files: &'a R,
    alloc: Global,
    folder: String,
    temporary: String,
    path: String,
    /// Whether the folder above was synced: the folder may have been made a moment before, by this process or by one
    /// that was stopped.
    is_named: bool,
    failed: u64,
}

impl<'a, R: Files> Model for FolderStore<'a, R> {
    ghost use Rattle.std.specs.Prelude.{string_bytes};
    ghost use Rattle.xf_store.specs.Objects.{OneFolder};

    ghost Value = { OneFolder };

    ghost view = { λ s. record { folder = string_bytes s.folder; faults = s.failed } };
}

impl<'a, R: Files> FolderStore<'a, R> {
    /// A store over the folder with this path. It takes the room for its paths, and opens nothing.
    pub fn new(alloc: Global, files: &'a R, folder: &str) -> Result<FolderStore<'a, R>, AllocError>
        ensures { IfOk result (λ store. store ≡ record { folder = folder.now; faults = 0 }) }
    {
        let mut temporary = String::from_str(alloc, folder)?;
        temporary.push_str("/.put")?;
        let room = folder.len().saturating_add(1 + STORE_NAME_LIMIT);
        Ok(FolderStore {
            files,
            alloc,
            folder: String::from_str(alloc, folder)?,
            temporary,
            path: String::with_capacity(alloc, room)?,
            is_named: false,
            failed: 0,
        })
    }

    fn put_file(&mut self, name: &str, bytes: &[u8]) -> io::Result<()>
        ensures { self.new.faults ≡ self.old.faults }
    {
        set_path(&mut self.path, self.folder.as_str(), name)?;
        let temporary = self.temporary.as_str();
        let file = made_anew(self.files, self.folder.as_str(), temporary)?;
        if let Err(error) = put_whole(self.files, file, bytes, temporary, self.path.as_str()) {
            // where this fails too, the next put removes it
            let _ = fs::remove_file(self.files, temporary);
            return Err(error);
        }
        // a name is durable where its folder is
        sync_folder_of(self.files, self.path.as_str())?;
        if !self.is_named {
            sync_folder_of(self.files, self.folder.as_str())?;
            self.is_named = true;
        }
        Ok(())
    }
}

impl<R: Files> Store for FolderStore<'_, R> {
    ghost held = { λ _. None };

    ghost calls = { λ _. None };

    ghost to_come = { λ _. None };

    ghost faults = { λ s. s.faults };

    fn put(&mut self, name: &str, bytes: &[u8]) -> Result<(), Failed> {
        match self.put_file(name, bytes) {
            Ok(()) => Ok(()),
            Err(_) => Err(counted(&mut self.failed)),
        }
    }

    fn get(&mut self, name: &str, into: &mut Bytes) -> Result<Got, GetFault> {
        set_path(&mut self.path, self.folder.as_str(), name)?;
        match read_plain(self.alloc, self.files, self.path.as_str()) {
            Ok(Some(bytes)) => {
                if bytes.len() > FOUND_LIMIT {
                    return Ok(Got::TooLong);
                }
                *into = Bytes::from_vec(bytes);
                Ok(Got::Found)
            }
            Ok(None) => Ok(Got::Absent),
            Err(GetFault::Failed) => {
                counted(&mut self.failed);
                Err(GetFault::Failed)
            }
            Err(GetFault::Memory) => Err(GetFault::Memory),
        }
    }
}

fn set_path(path: &mut String, folder: &str, name: &str) -> Result<(), AllocError> {
    path.clear();
    path.push_str(folder)?;
    path.push_str("/")?;
    path.push_str(name)
}

/// Makes a file that was not there: what an earlier put left under its name is removed, and the folder is made where there is none.
fn made_anew<R: Files>(files: &R, folder: &str, path: &str) -> io::Result<R::File> {
    match made(files, path) {
        Ok(file) => Ok(file),
        Err(error) => {
            match error.kind() {
                ErrorKind::AlreadyExists => fs::remove_file(files, path)?,
                ErrorKind::NotFound => fs::create_dir(files, folder)?,
                _ => return Err(error),
            }
            made(files, path)
        }
    }
}

fn made<R: Files>(files: &R, path: &str) -> io::Result<R::File> {
    OpenOptions::new()
        .write(true)
        .create_new(true)
        .open(files, path)
}

/// Writes a new file, and gives it its name once all of it is durable.
fn put_whole<R: Files>(
    files: &R,
    file: R::File,
    bytes: &[u8],
    from: &str,
    to: &str,
) -> io::Result<()> {
    let mut file = file;
    file.write_all(bytes)?;
    file.sync_all()?;
    fs::rename(files, from, to)
}

/// What a plain file holds, or more of it than a get gives. None where there is no file.
fn read_plain<R: Files>(alloc: Global, files: &R, path: &str) -> Result<Option<Vec<u8>>, GetFault> {
    match open_plain(files, path) {
        Ok(file) => Ok(Some(read_at_most(alloc, file)?)),
        Err(error) => {
            if error.kind() == ErrorKind::NotFound {
                return Ok(None);
            }
            Err(GetFault::Failed)
        }
    }
}

fn open_plain<R: Files>(files: &R, path: &str) -> io::Result<R::File> {
    if !fs::metadata(files, path)?.is_file() {
        return Err(ErrorKind::InvalidInput.into());
    }
    fs::open(files, path)
}

/// Reads a file to its end, or to more than a get gives.
fn read_at_most<F: Read + Drop>(alloc: Global, file: F) -> Result<Vec<u8>, GetFault> {
    let mut file = file;
    let mut bytes = Vec::new(alloc);
    let mut piece = [0; 8192];
    while bytes.len() <= FOUND_LIMIT {
        match read_again(&mut file, &mut piece) {
            Ok(count) => {
                if count == 0 {
                    return Ok(bytes);
                }
                bytes.extend_from_slice(&piece[..count])?;
            }
            Err(_) => return Err(GetFault::Failed),
        }
    }
    Ok(bytes)
}
