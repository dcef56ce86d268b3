//! The program: the real objects under their fixed names.
#![tactic(auto)]

mod explaining;

use explaining::{FORM, explain_status};
use std::alloc::AllocError;
use std::fs::File;
use std::os::fd::AsRawFd;
use std::process::ExitCode;
use std::{env, fs, io};
use xf_cli::{no_room, xforms};
use xf_disk::FileDisk;
use xf_io::{FileSource, ReaderSource, WriterSink};
use xf_store::FolderStore;

fn main(rt: HostRuntime) -> ExitCode {
    let alloc = rt.alloc();
    // They are open until the end, so that no file is opened in the place of a standard stream.
    let _held = [hold_stream(&rt), hold_stream(&rt), hold_stream(&rt)];
    let mut out = WriterSink::new(io::writer(&rt));
    let Some(words) = read_words(&rt) else {
        return ExitCode::from(no_room(&mut out));
    };
    let Ok(mut disk) = disk_for(&rt, &words) else {
        return ExitCode::from(no_room(&mut out));
    };
    let Ok(mut store) = FolderStore::new(alloc, &rt, "store") else {
        return ExitCode::from(no_room(&mut out));
    };
    let mut form = FileSource::new(&rt, FORM);
    let mut events = ReaderSource::new(rt.reader());
    let status = xforms(
        alloc,
        &words,
        &mut form,
        &mut events,
        &mut out,
        &mut disk,
        &mut store,
    );
    explain_status(&rt, status);
    ExitCode::from(status)
}

// The disk of the slots: for `show` one that reads alone.
fn disk_for<'a>(
    rt: &'a HostRuntime,
    words: &[String],
) -> Result<FileDisk<'a, HostRuntime>, AllocError> {
    if words.iter().any(|word| word.as_str() == "show") {
        FileDisk::to_read(rt.alloc(), rt, "session.a", "session.b")
    } else {
        FileDisk::new(rt.alloc(), rt, "session.a", "session.b")
    }
}

// Takes the place of a standard stream that is closed, if one is, by a folder: what can neither be read nor written.
fn hold_stream(rt: &HostRuntime) -> Option<File> {
    match fs::open(rt, "/") {
        Ok(folder) => {
            if folder.as_raw_fd() <= 2 {
                return Some(folder);
            }
            None
        }
        Err(_) => None,
    }
}

// The words after the name of the program, or None for want of memory.
fn read_words(rt: &HostRuntime) -> Option<Vec<String>> {
    let mut words = Vec::new(rt.alloc());
    match env::args(rt) {
        Ok(args) => {
            for word in args.skip(1) {
                if words.push(word).is_err() {
                    return None;
                }
            }
            Some(words)
        }
        Err(error) => {
            if error.kind() == io::ErrorKind::OutOfMemory {
                return None;
            }
            // A word that is not UTF-8 leaves no words, which spell no command.
            Some(words)
        }
    }
}
