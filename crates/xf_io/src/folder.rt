//! The folder that a path lies in.

use std::fs::{OpenFile, OpenOptions};
use std::io;
use std::rt::Files;

/// Syncs the folder that this path lies in, after which the name there is durable.
pub fn sync_folder_of<R: Files>(files: &R, path: &str) -> io::Result<()> {
    OpenOptions::new()
        .read(true)
        .open(files, folder_of(path))?
        .sync_all()
}

fn folder_of(path: &str) -> &str {
    match path.rsplit_once('/') {
        Some(("", _)) => "/",
        Some((folder, _)) => folder,
        None => ".",
    }
}
