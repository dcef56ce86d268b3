//! Stores over folders, a sound one and ones whose folders and files fail.

use crate::files::words::push_done;
use std::alloc::{AllocError, AllocGlobal};
use std::fs;
use std::os::unix::fs::symlink;
use xf_io::Bytes;
use xf_store::{FOUND_LIMIT, FolderStore, GetFault, Got, Store};

const SOUND: &str = "xf_test_devices_sound";

const BROKEN: &str = "xf_test_devices_broken";

const FAILING: &str = "xf_test_devices_failing";

const LINKED: &str = "xf_test_devices_linked";

#[derive(Clone, Copy)]
enum Call<'a> {
    Put(&'a str, &'a [u8]),
    Get(&'a str),
}

/// What calls give in a store over a folder: of a get that finds bytes these are given, or `most` where there are so many.
fn told(rt: &HostRuntime, folder: &str, calls: &[Call]) -> Result<String, AllocError> {
    let mut store = FolderStore::new(rt.alloc(), rt, folder)?;
    let mut into = Bytes::new(rt.alloc());
    let mut words = String::new(rt.alloc());
    for call in calls {
        tell(&mut words, &mut store, &mut into, *call)?;
    }
    Ok(words)
}

fn tell(
    words: &mut String,
    store: &mut FolderStore<HostRuntime>,
    into: &mut Bytes,
    call: Call,
) -> Result<(), AllocError> {
    match call {
        Call::Put(name, bytes) => push_done(words, store.put(name, bytes)),
        Call::Get(name) => {
            let got = store.get(name, into);
            push_got(words, got, into.as_slice())
        }
    }
}

fn push_got(words: &mut String, got: Result<Got, GetFault>, into: &[u8]) -> Result<(), AllocError> {
    let word = match got {
        Ok(Got::Found) if into.len() == FOUND_LIMIT => "most",
        Ok(Got::Found) => str::from_utf8(into).unwrap_or("no text"),
        Ok(Got::Absent) => "absent",
        Ok(Got::TooLong) => "long",
        Err(GetFault::Failed) => "failed",
        Err(GetFault::Memory) => "memory",
    };
    words.push_str(word)?;
    words.push_str(" ")
}

#[test]
fn a_folder_is_a_store(rt: HostRuntime) {
    let long = vec![in rt.alloc(); 0; FOUND_LIMIT + 1].expect(&rt, "room");
    let calls = [
        Call::Get("a"),
        Call::Put("a", b"one"),
        Call::Put("a", b"two"),
        Call::Get("a"),
        Call::Put("a", &long),
        Call::Get("a"),
        Call::Put("a", &long[1..]),
        Call::Get("a"),
    ];
    let _ = fs::remove_dir_all(&rt, SOUND);
    let words = told(&rt, SOUND, &calls).expect(&rt, "room");
    assert_eq!(rt; words.as_str(), "absent done done two done long done most ");
    let _ = fs::remove_dir_all(&rt, SOUND);
}

#[test]
fn a_store_tells_that_a_name_did_not_open(rt: HostRuntime) {
    let _ = fs::remove_dir_all(&rt, BROKEN);
    fs::create_dir_all(&rt, "xf_test_devices_broken/folder").expect(&rt, "a folder");
    let long = "n".repeat(rt.alloc(), 300).expect(&rt, "room");
    // a folder in the place of a file; a name that no folder takes; a file in the place of the folder
    let cases = [
        (BROKEN, "folder"),
        (BROKEN, long.as_str()),
        ("/dev/null", "a"),
    ];
    for (folder, name) in cases {
        let calls = [Call::Put(name, b"x"), Call::Get(name)];
        let words = told(&rt, folder, &calls).expect(&rt, "room");
        assert_eq!(rt; words.as_str(), "failed failed ", "{folder} {name}");
    }
    let _ = fs::remove_dir_all(&rt, BROKEN);
}

#[test]
fn a_store_tells_that_a_file_failed(rt: HostRuntime) {
    // a get of a file that opens and gives no byte; a put past a folder in the place of the file that it makes
    const CALLS: [Call<'static>; 3] = [Call::Get("mem"), Call::Put("a", b"x"), Call::Get("a")];
    let _ = fs::remove_dir_all(&rt, FAILING);
    fs::create_dir_all(&rt, "xf_test_devices_failing/.put").expect(&rt, FAILING);
    symlink(&rt, "/proc/self/mem", "xf_test_devices_failing/mem").expect(&rt, "a link");
    let words = told(&rt, FAILING, &CALLS).expect(&rt, "room");
    assert_eq!(rt; words.as_str(), "failed failed absent ");
    let _ = fs::remove_dir_all(&rt, FAILING);
}

#[test]
fn a_put_follows_no_link_and_leaves_nothing_behind(rt: HostRuntime) {
    // a put with a link to another resource in the place of the file that it makes; one that fails at its last step; and
    // gets by a link to a file and by one to a device
    const CALLS: [Call<'static>; 6] = [
        Call::Put("kept", b"kept"),
        Call::Put("a", b"x"),
        Call::Get("kept"),
        Call::Get("a"),
        Call::Put("folder", b"y"),
        Call::Get("device"),
    ];
    let _ = fs::remove_dir_all(&rt, LINKED);
    fs::create_dir_all(&rt, "xf_test_devices_linked/folder").expect(&rt, LINKED);
    symlink(&rt, "/dev/zero", "xf_test_devices_linked/device").expect(&rt, "a link");
    let words = told(&rt, LINKED, &CALLS[..1]).expect(&rt, "room");
    assert_eq!(rt; words.as_str(), "done ");
    symlink(&rt, "kept", "xf_test_devices_linked/.put").expect(&rt, "a link");
    let words = told(&rt, LINKED, &CALLS[1..]).expect(&rt, "room");
    assert_eq!(rt; words.as_str(), "done kept x failed failed ");
    let left = fs::symlink_metadata(&rt, "xf_test_devices_linked/.put");
    assert!(rt; left.is_err());
    let about = fs::symlink_metadata(&rt, "xf_test_devices_linked/a").expect(&rt, "a file");
    assert!(rt; about.is_file());
    let _ = fs::remove_dir_all(&rt, LINKED);
}

#[test]
fn a_store_tells_that_its_folder_failed(rt: HostRuntime) {
    const CALLS: [Call<'static>; 2] = [
        Call::Put("xf_test_devices_put", b"x"),
        Call::Get("xf_test_devices_none"),
    ];
    // a folder that may not be written, and one that may, in one that syncs nothing
    for folder in ["/proc/self/fd", "/proc/self/cwd"] {
        let words = told(&rt, folder, &CALLS).expect(&rt, "room");
        assert_eq!(rt; words.as_str(), "failed absent ", "{folder}");
    }
    let _ = fs::remove_file(&rt, "xf_test_devices_put");
}
