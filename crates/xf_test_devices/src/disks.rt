//! What no contract says: the list of calls, and a few images by hand.

use std::alloc::{AllocError, Global};
use xf_disk::*;
use xf_io::Failed;

// a slot of four bytes, then a write of three at 2: any of the last three may change, and the length is 4 or 5
fn written(alloc: Global) -> Result<MemoryDisk, AllocError> {
    let mut disk = MemoryDisk::new(alloc, b"abcd", b"", 8, 16)?;
    let _ = disk.write(Slot::A, 2, b"xyz");
    Ok(disk)
}

#[test]
fn a_crash_leaves_what_was_synced_and_any_bytes_in_the_ranges(rt: HostRuntime) {
    // the image of slot A, and whether a crash may leave it
    const CASES: [(&[u8], bool); 8] = [
        (b"abcd", true),
        (b"abxyz", true),
        (b"abxy", true),
        (b"ab??!", true),
        (b"abc", false),
        (b"abxyz!", false),
        (b"Abxyz", false),
        (b"", false),
    ];
    let disk = written(rt.alloc()).expect(&rt, "room");
    for (image, may) in CASES {
        let left = disk.left_with(rt.alloc(), image, b"").expect(&rt, "room");
        assert_gives!(rt; left.is_some(), may);
        if let Some(left) = &left {
            assert_gives!(rt; left.held(Slot::A), image);
        }
        let beside = disk.left_with(rt.alloc(), image, b"b").expect(&rt, "room");
        assert_gives!(rt; beside.is_none(), true);
    }
}

#[test]
fn the_filling_takes_each_byte_that_was_written(rt: HostRuntime) {
    // the filling, how far the slot grew, and what stands then
    const CASES: [(Option<u8>, u64, &[u8]); 4] = [
        (None, 0, b"abxy"),
        (None, 9, b"abxyz"),
        (Some(b'!'), 0, b"ab!!"),
        (Some(b'!'), 1, b"ab!!!"),
    ];
    let disk = written(rt.alloc()).expect(&rt, "room");
    for (fill, grown, image) in CASES {
        let left = disk
            .after_crash(rt.alloc(), fill, grown)
            .expect(&rt, "room");
        assert_gives!(rt; left.held(Slot::A), image);
        assert_gives!(rt; left.held(Slot::B).is_empty(), true);
    }
}

#[test]
fn a_synced_slot_stays_and_the_other_does_not(rt: HostRuntime) {
    const CALLS: [Call; 3] = [
        Call::Write(Slot::A, 2, 3),
        Call::Write(Slot::B, 0, 1),
        Call::Sync(Slot::A),
    ];
    let mut disk = written(rt.alloc()).expect(&rt, "room");
    assert_gives!(rt; disk.write(Slot::B, 0, b"b"), Ok(()));
    assert_gives!(rt; disk.sync(Slot::A), Ok(()));
    let left = disk
        .after_crash(rt.alloc(), Some(b'!'), 0)
        .expect(&rt, "room");
    assert_gives!(rt; left.held(Slot::A), b"abxyz".as_slice());
    assert_gives!(rt; left.held(Slot::B).is_empty(), true);
    assert_gives!(rt; disk.calls(), CALLS.as_slice());
}

#[test]
fn a_call_past_the_room_fails_and_changes_nothing(rt: HostRuntime) {
    let mut disk = MemoryDisk::new(rt.alloc(), b"", b"", 2, 4).expect(&rt, "room");
    let mut into = [b'-'; 3];
    assert_gives!(rt; disk.write(Slot::A, 0, b"abc"), Err(Failed));
    assert_gives!(rt; disk.write(Slot::A, 0, b"ab"), Ok(()));
    assert_gives!(rt; disk.read(Slot::A, 1, &mut into), Ok(1));
    assert_gives!(rt; into, *b"b--");
    assert_gives!(rt; disk.len(Slot::A), Ok(2));
    // the list of calls is full
    assert_gives!(rt; disk.sync(Slot::A), Err(Failed));
    assert_gives!(rt; disk.held(Slot::A), b"ab".as_slice());
}

#[test]
fn a_fuse_passes_its_calls_and_no_more(rt: HostRuntime) {
    let inner = MemoryDisk::new(rt.alloc(), b"ab", b"", 8, 8).expect(&rt, "room");
    let mut disk = FusedDisk::new(inner, 2);
    let mut into = [0; 1];
    assert_gives!(rt; disk.read(Slot::A, 1, &mut into), Ok(1));
    assert_gives!(rt; disk.len(Slot::B), Ok(0));
    assert_gives!(rt; disk.write(Slot::B, 0, b"c"), Err(Failed));
    assert_gives!(rt; disk.sync(Slot::B), Err(Failed));
    assert_gives!(rt; disk.len(Slot::B), Err(Failed));
    assert_gives!(rt; disk.read(Slot::B, 0, &mut into), Err(Failed));
    assert_gives!(rt; disk.disk.calls().len(), 2);
}
