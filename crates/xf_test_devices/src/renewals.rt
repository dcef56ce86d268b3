//! Each stop of one `renew`; and an entry behind one of the first format.

use crate::journals::{CRASHES, LINE, OLD_SLOT, SLOT};
use std::alloc::{AllocError, Global};
use xf_disk::{FusedDisk, MemoryDisk, Slot};
use xf_io::Bytes;
use xf_journal::*;
use xf_store::Answers;

// What stands in slot B beside a journal of epoch 2: nothing, a closed gate before a whole journal of epoch 3, which a write over that gate could
// open, and an open journal of epoch 1.
const OTHERS: [Option<[u8; 2]>; 4] = [None, Some([0, 3]), Some([255, 3]), Some([1, 1])];

// the slot with this gate and this epoch
fn slot_with([gate, epoch]: [u8; 2]) -> [u8; 179] {
    let mut slot = *SLOT;
    slot[0] = gate;
    slot[5] = epoch;
    slot
}

// what the other slot holds
fn other(alloc: Global, kind: Option<[u8; 2]>) -> Result<Bytes, AllocError> {
    match kind {
        None => Ok(Bytes::new(alloc)),
        Some(bytes) => Ok(Bytes::from_vec(Vec::from_slice(alloc, &slot_with(bytes))?)),
    }
}

// the form with one byte more, and another base, after one change of the form
fn image(alloc: Global) -> Result<Image, AllocError> {
    Ok(Image {
        adoptions: 1,
        form: Bytes::from_vec(Vec::from_slice(alloc, b"[\"f\"]")?),
        base: Bytes::from_vec(Vec::from_slice(alloc, &[0, 1, 0])?),
    })
}

/// Opens the slots and writes the image, as far as the calls go. It says whether they went to the end.
fn run(alloc: Global, disk: &mut FusedDisk<MemoryDisk>, image: &Image) -> bool {
    let Ok(Some(scanned)) = scan(alloc, disk) else {
        return false;
    };
    if image.form.len() > 1 << 20 || image.base.len() > 3 {
        return false;
    }
    scanned.journal.renew(disk, image).is_ok()
}

// The slot, the epoch, the number of entries and the changes of the form that are found, or `None`.
fn found_on(
    alloc: Global,
    a: &[u8],
    b: &[u8],
) -> Result<Option<(Slot, u64, u64, u32)>, AllocError> {
    let mut disk = MemoryDisk::new(alloc, a, b, 512, 16)?;
    match scan(alloc, &mut disk) {
        Ok(Some(scanned)) => {
            let journal = &scanned.journal;
            let found = (
                journal.slot(),
                journal.epoch(),
                journal.count(),
                scanned.adoptions,
            );
            Ok(Some(found))
        }
        _ => Ok(None),
    }
}

/// Whether a crash may leave what is found: the old journal until the calls went to the end, or the new one.
fn is_right(now: Option<(Slot, u64, u64, u32)>, is_done: bool) -> bool {
    match now {
        Some((Slot::A, 2, 1, 0)) => !is_done,
        Some((Slot::B, 3, 0, 1)) => true,
        _ => false,
    }
}

/// Whether each crash leaves what may be left.
fn are_right(alloc: Global, disk: &MemoryDisk, is_done: bool) -> Result<bool, AllocError> {
    for (fill, grown) in CRASHES {
        let left = disk.after_crash(alloc, fill, grown)?;
        let now = found_on(alloc, left.held(Slot::A), left.held(Slot::B))?;
        if !is_right(now, is_done) {
            return Ok(false);
        }
    }
    Ok(true)
}

#[test]
fn each_stop_of_a_renewal_leaves_the_old_journal_or_the_new_one(rt: HostRuntime) {
    let image = image(rt.alloc()).expect(&rt, "room");
    for kind in OTHERS {
        for calls in 0..20u64 {
            let b = other(rt.alloc(), kind).expect(&rt, "room");
            let inner = MemoryDisk::new(rt.alloc(), &slot_with([1, 2]), b.as_slice(), 256, 64);
            let mut disk = FusedDisk::new(inner.expect(&rt, "room"), calls);
            let is_done = run(rt.alloc(), &mut disk, &image);
            let are_right = are_right(rt.alloc(), &disk.disk, is_done).expect(&rt, "room");
            assert_gives!(rt; (kind, calls, are_right), (kind, calls, true));
            assert_gives!(rt; (calls, is_done || calls < 16), (calls, true));
        }
    }
}

/// Adds an entry to the journal of these slots, where it has room.
fn append(alloc: Global, disk: &mut MemoryDisk, entry: &Entry) -> bool {
    let Ok(Some(scanned)) = scan(alloc, disk) else {
        return false;
    };
    let mut journal = scanned.journal;
    let stands = disk.held(journal.slot()).len() as u64;
    if journal.used() > stands || journal.used() > 256 || entry.len() > 28 {
        return false;
    }
    journal.append(disk, entry).is_ok()
}

#[test]
fn a_slot_of_the_first_format_is_appended_to_in_place(rt: HostRuntime) {
    let entry = make_entry(rt.alloc(), LINE, &Answers::new(rt.alloc())).expect(&rt, "room");
    let mut disk = MemoryDisk::new(rt.alloc(), OLD_SLOT, b"", 512, 16).expect(&rt, "room");
    assert_gives!(rt; append(rt.alloc(), &mut disk, &entry), true);
    let held = disk.held(Slot::A);
    assert_gives!(rt; held.len(), 203);
    assert_gives!(rt; held.get(..174), OLD_SLOT.get(..174));
    assert_gives!(rt; held.get(174..), OLD_SLOT.get(146..));
    let found = found_on(rt.alloc(), held, b"").expect(&rt, "room");
    assert_gives!(rt; found, Some((Slot::A, 1, 2, 0)));
}
