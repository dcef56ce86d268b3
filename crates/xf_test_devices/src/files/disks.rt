//! Disks over files, a sound one and ones whose files fail.

use crate::files::words::{push_done, push_number, push_read};
use std::alloc::{AllocError, AllocGlobal, Global};
use std::fs;
use std::os::fd::AsRawFd;
use std::os::unix::fs::symlink;
use xf_disk::{Disk, FileDisk, Slot};

const FOLDER: &str = "xf_test_devices_disk";

const ONE: &str = "xf_test_devices_one";

const LINK: &str = "xf_test_devices_link";

const HELD: &str = "xf_test_devices_held";

const HELD_BESIDE: &str = "xf_test_devices_held_beside";

/// A call. A read is one of eight bytes.
#[derive(Clone, Copy)]
enum Call {
    Len(Slot),
    Read(Slot, u64),
    Write(Slot, u64, &'static [u8]),
    Sync(Slot),
}

/// What calls give on a disk over two files.
fn told(rt: &HostRuntime, a: &str, b: &str, calls: &[Call]) -> Result<String, AllocError> {
    let mut disk = FileDisk::new(rt.alloc(), rt, a, b)?;
    told_by(rt.alloc(), &mut disk, calls)
}

/// What calls give on this disk.
fn told_by(
    alloc: Global,
    disk: &mut FileDisk<HostRuntime>,
    calls: &[Call],
) -> Result<String, AllocError> {
    let mut words = String::new(alloc);
    for call in calls {
        tell(alloc, &mut words, disk, *call)?;
    }
    Ok(words)
}

fn tell(
    alloc: Global,
    words: &mut String,
    disk: &mut FileDisk<HostRuntime>,
    call: Call,
) -> Result<(), AllocError> {
    match call {
        Call::Len(slot) => push_number(alloc, words, disk.len(slot)),
        Call::Read(slot, at) => {
            let mut into = [b'-'; 8];
            let read = disk.read(slot, at, &mut into);
            push_read(alloc, words, read, &into)
        }
        Call::Write(slot, at, bytes) => push_done(words, disk.write(slot, at, bytes)),
        Call::Sync(slot) => push_done(words, disk.sync(slot)),
    }
}

#[test]
fn two_files_are_a_disk(rt: HostRuntime) {
    const CALLS: [Call; 7] = [
        Call::Sync(Slot::A),
        Call::Write(Slot::A, 0, b"abcd"),
        Call::Write(Slot::A, 2, b"xyz"),
        Call::Sync(Slot::A),
        Call::Len(Slot::A),
        Call::Read(Slot::A, 1),
        Call::Len(Slot::B),
    ];
    let _ = fs::remove_dir_all(&rt, FOLDER);
    fs::create_dir(&rt, FOLDER).expect(&rt, FOLDER);
    let words = told(
        &rt,
        "xf_test_devices_disk/a",
        "xf_test_devices_disk/b",
        &CALLS,
    )
    .expect(&rt, "room");
    assert_eq!(rt; words.as_str(), "done done done done 5 4:bxyz---- 0 ");
    let held = fs::read(&rt, "xf_test_devices_disk/a").expect(&rt, "a file");
    assert_eq!(rt; held.as_slice(), b"abxyz".as_slice());
    let _ = fs::remove_dir_all(&rt, FOLDER);
}

// A file that opens, takes no byte and syncs nothing, and one that opens and gives no byte.
#[test]
fn a_disk_tells_that_a_call_failed(rt: HostRuntime) {
    const CALLS: [Call; 4] = [
        Call::Len(Slot::A),
        Call::Write(Slot::A, 0, b"a"),
        Call::Sync(Slot::A),
        Call::Read(Slot::B, 0),
    ];
    let words = told(&rt, "/proc/self/oom_score_adj", "/proc/self/mem", &CALLS).expect(&rt, "room");
    assert_eq!(rt; words.as_str(), "0 failed failed failed ");
}

// A folder in the place of a file, a file below a file, and a folder that is not there.
#[test]
fn a_disk_tells_that_a_file_did_not_open(rt: HostRuntime) {
    const CALLS: [Call; 4] = [
        Call::Len(Slot::A),
        Call::Read(Slot::A, 0),
        Call::Write(Slot::B, 0, b"b"),
        Call::Sync(Slot::B),
    ];
    for path in [".", "/dev/null/a", "xf_test_devices_none/a"] {
        let words = told(&rt, path, path, &CALLS).expect(&rt, "room");
        assert_eq!(rt; words.as_str(), "failed failed failed failed ", "{path}");
    }
}

// A file that syncs, by a name in a folder that does not.
#[test]
fn a_disk_tells_that_a_name_is_not_durable(rt: HostRuntime) {
    const CALLS: [Call; 3] = [
        Call::Write(Slot::A, 0, b"a"),
        Call::Sync(Slot::A),
        Call::Sync(Slot::B),
    ];
    let file = fs::create(&rt, "xf_test_devices_named").expect(&rt, "a file");
    let name = format!(in rt.alloc(); "/proc/self/fd/{}", file.as_raw_fd()).expect(&rt, "room");
    let words = told(&rt, name.as_str(), "xf_test_devices_beside", &CALLS).expect(&rt, "room");
    assert_eq!(rt; words.as_str(), "done failed done ");
    let _ = fs::remove_file(&rt, "xf_test_devices_named");
    let _ = fs::remove_file(&rt, "xf_test_devices_beside");
}

// Files that are no two plain files: one and itself, one and a link to it, a device.
#[test]
fn a_disk_is_over_two_plain_files(rt: HostRuntime) {
    const CALLS: [Call; 2] = [Call::Write(Slot::A, 0, b"a"), Call::Len(Slot::B)];
    // the two paths, and why they are refused
    const CASES: [(&str, &str, &str); 4] = [
        (ONE, ONE, "B open both slots are this one file"),
        (ONE, LINK, "B open both slots are this one file"),
        ("/dev/null", ONE, "A open it is no plain file"),
        (ONE, "/dev/null", "B open it is no plain file"),
    ];
    fs::write(&rt, ONE, b"one").expect(&rt, ONE);
    let _ = fs::remove_file(&rt, LINK);
    symlink(&rt, ONE, LINK).expect(&rt, LINK);
    for (a, b, want) in CASES {
        let mut disk = FileDisk::new(rt.alloc(), &rt, a, b).expect(&rt, "room");
        let words = told_by(rt.alloc(), &mut disk, &CALLS).expect(&rt, "room");
        assert_eq!(rt; words.as_str(), "failed failed ", "{a} {b}");
        let why = why_of(rt.alloc(), &disk).expect(&rt, "room");
        assert_eq!(rt; why.as_str(), want, "{a} {b}");
    }
    let held = fs::read(&rt, ONE).expect(&rt, ONE);
    assert_eq!(rt; held.as_slice(), b"one".as_slice());
    let _ = fs::remove_file(&rt, ONE);
    let _ = fs::remove_file(&rt, LINK);
}

/// Why the last call that failed did, in words.
fn why_of(alloc: Global, disk: &FileDisk<HostRuntime>) -> Result<String, AllocError> {
    match disk.why() {
        Some(why) => {
            let slot = if why.slot == Slot::A { "A" } else { "B" };
            format!(in alloc; "{slot} {} {}", why.call, why.error)
        }
        None => String::from_str(alloc, "nothing"),
    }
}

// One disk that writes, or some that read alone.
#[test]
fn one_program_has_a_session(rt: HostRuntime) {
    const CALLS: [Call; 1] = [Call::Len(Slot::A)];
    fs::write(&rt, HELD, b"held").expect(&rt, HELD);
    // whether the disk that is first reads alone, whether the second does, and what the calls of the second give
    const CASES: [(bool, bool, &str); 4] = [
        (false, false, "failed "),
        (false, true, "failed "),
        (true, false, "failed "),
        (true, true, "4 "),
    ];
    for (first, second, want) in CASES {
        let mut one = disk_over(&rt, first).expect(&rt, "room");
        let words = told_by(rt.alloc(), &mut one, &CALLS).expect(&rt, "room");
        assert_eq!(rt; words.as_str(), "4 ", "{first} {second}");
        let mut other = disk_over(&rt, second).expect(&rt, "room");
        let words = told_by(rt.alloc(), &mut other, &CALLS).expect(&rt, "room");
        assert_eq!(rt; words.as_str(), want, "{first} {second}");
        // the lock is gone with the disk
        drop(one);
        let words = told_by(rt.alloc(), &mut other, &CALLS).expect(&rt, "room");
        assert_eq!(rt; words.as_str(), "4 ", "{first} {second}");
    }
    let _ = fs::remove_file(&rt, HELD);
    let _ = fs::remove_file(&rt, HELD_BESIDE);
}

fn disk_over(rt: &HostRuntime, reads_alone: bool) -> Result<FileDisk<'_, HostRuntime>, AllocError> {
    if reads_alone {
        FileDisk::to_read(rt.alloc(), rt, HELD, HELD_BESIDE)
    } else {
        FileDisk::new(rt.alloc(), rt, HELD, HELD_BESIDE)
    }
}

#[test]
fn a_disk_that_reads_alone_makes_nothing(rt: HostRuntime) {
    const CALLS: [Call; 4] = [
        Call::Sync(Slot::A),
        Call::Len(Slot::A),
        Call::Read(Slot::B, 0),
        Call::Write(Slot::A, 0, b"a"),
    ];
    let [a, b] = ["xf_test_devices_no_a", "xf_test_devices_no_b"];
    let mut disk = FileDisk::to_read(rt.alloc(), &rt, a, b).expect(&rt, "room");
    let words = told_by(rt.alloc(), &mut disk, &CALLS).expect(&rt, "room");
    assert_eq!(rt; words.as_str(), "done 0 0:-------- failed ");
    assert!(rt; fs::metadata(&rt, a).is_err());
    assert!(rt; fs::metadata(&rt, b).is_err());
}
