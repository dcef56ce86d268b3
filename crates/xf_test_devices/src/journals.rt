//! The bytes of slots, by hand; the disk calls of an append; and each stop of one `create` and one `append`.
ghost use Rattle.std.specs.Prelude.{IsTrue, IfSome};
ghost use Rattle.xf_journal.specs.Entry.{is_within, are_within};

use std::alloc::{AllocError, Global};
use xf_disk::{Call, Disk, FusedDisk, MemoryDisk, Slot};
use xf_io::{Bytes, Failed};
use xf_journal::*;
use xf_store::{Answer, Answers};

const FORM: &[u8; 123] =
    br#"["f",{"xmlns:xf":"http://www.w3.org/2002/xforms"},["xf:model",["xf:instance",["d","1"]]],["xf:input",{"id":"a","ref":"."}]]"#;

pub(crate) const LINE: &[u8; 18] = br#"["set","a",[],"2"]"#;

// that form under epoch 1, with a base of no answers and the line as its one entry
pub(crate) const SLOT: &[u8; 179] =
    b"\x01XFS2\x01\0\0\0\0\0\0\0\x7b\0\0\0\x02\0\0\0\0\0\0\0[\"f\",{\"xmlns:xf\":\"http://www.w3.org/2002/xforms\"},[\"xf:model\",[\"xf:instance\",[\"d\",\"1\"]]],[\"xf:input\",{\"id\":\"a\",\"ref\":\".\"}]]\0\0\x01\x17\0\0\0\x12\0\0\0[\"set\",\"a\",[],\"2\"]\0\0";

// the same in the first format, which is read and appended to, and no more written
pub(crate) const OLD_SLOT: &[u8; 175] =
    b"\x01XFS1\x01\0\0\0\0\0\0\0\x7b\0\0\0\x02\0\0\0[\"f\",{\"xmlns:xf\":\"http://www.w3.org/2002/xforms\"},[\"xf:model\",[\"xf:instance\",[\"d\",\"1\"]]],[\"xf:input\",{\"id\":\"a\",\"ref\":\".\"}]]\0\0\x01\x17\0\0\0\x12\0\0\0[\"set\",\"a\",[],\"2\"]\0\0";

fn image(alloc: Global) -> Result<Image, AllocError> {
    Ok(Image {
        adoptions: 0,
        form: Bytes::from_vec(Vec::from_slice(alloc, FORM)?),
        base: Bytes::from_vec(Vec::from_slice(alloc, &[0, 0])?),
    })
}

/// What a scan gives, in short: the damage, or the number of entries with the place where they are cut.
#[derive(Clone, Copy, Debug, PartialEq, Eq)]
enum Found {
    Nothing,
    Damaged(Slot, u64),
    Entries(u64, Option<u64>),
    Else,
}

fn found_on(alloc: Global, a: &[u8], b: &[u8]) -> Result<Found, AllocError> {
    let mut disk = MemoryDisk::new(alloc, a, b, 512, 16)?;
    let scanned = scan(alloc, &mut disk);
    Ok(found_by(&scanned))
}

fn found_by(scanned: &Result<Option<Scanned>, JournalFault>) -> Found {
    match scanned {
        Ok(None) => Found::Nothing,
        Ok(Some(scanned)) => Found::Entries(scanned.journal.count(), scanned.cut),
        Err(JournalFault::Damaged(slot, at)) => Found::Damaged(*slot, *at),
        Err(_) => Found::Else,
    }
}

// Makes a journal of that form in slot A, where the disk has room for it.
fn created(alloc: Global, disk: &mut MemoryDisk) -> Option<Journal> {
    let image = image(alloc).ok()?;
    if image.form.len() > 1 << 20 || image.base.len() > 2 {
        return None;
    }
    create(disk, Slot::A, 1, &image).ok()
}

// Appends an entry, where the journal stands in the slot and the entry has room.
fn append(
    disk: &mut MemoryDisk,
    journal: &mut Journal,
    entry: &Entry,
) -> Option<Result<(), Failed>> {
    let stands = disk.held(journal.slot()).len() as u64;
    if journal.used() > stands || journal.used() > 256 || entry.len() > 28 {
        return None;
    }
    Some(journal.append(disk, entry))
}

#[test]
fn a_new_slot_and_one_entry_have_their_bytes(rt: HostRuntime) {
    const CALLS: [Call; 4] = [
        Call::Write(Slot::A, 151, 28),
        Call::Sync(Slot::A),
        Call::Write(Slot::A, 150, 1),
        Call::Sync(Slot::A),
    ];
    let entry = make_entry(rt.alloc(), LINE, &Answers::new(rt.alloc())).expect(&rt, "room");
    assert_gives!(rt; entry.len(), 28);
    let mut disk = MemoryDisk::new(rt.alloc(), b"", b"", 256, 64).expect(&rt, "room");
    let mut journal = created(rt.alloc(), &mut disk).expect(&rt, "room");
    assert_gives!(rt; (journal.slot(), journal.used()), (Slot::A, 151));
    assert_gives!(rt; disk.held(Slot::A).len(), 151);
    let calls = disk.calls().len();
    assert_gives!(rt; append(&mut disk, &mut journal, &entry), Some(Ok(())));
    assert_gives!(rt; disk.calls().get(calls..), Some(CALLS.as_slice()));
    assert_gives!(rt; disk.held(Slot::A), SLOT.as_slice());
    assert_gives!(rt; disk.held(Slot::B).is_empty(), true);
}

#[test]
fn a_slot_that_is_cut_is_damaged_where_it_ends(rt: HostRuntime) {
    // from how many bytes to how many, the last not counted, and what is found then
    const CASES: [(usize, usize, Found); 6] = [
        (0, 22, Found::Nothing),
        (22, 144, Found::Damaged(Slot::A, 13)),
        (144, 146, Found::Damaged(Slot::A, 17)),
        (146, 174, Found::Entries(0, Some(146))),
        (174, 175, Found::Entries(1, Some(174))),
        (175, 176, Found::Entries(1, None)),
    ];
    for (from, end, want) in CASES {
        for n in from..end {
            assert!(rt; n <= OLD_SLOT.len());
            let found = found_on(rt.alloc(), &OLD_SLOT[..n], b"").expect(&rt, "room");
            assert_gives!(rt; (n, found), (n, want));
        }
    }
}

#[test]
fn a_byte_that_is_changed_is_found(rt: HostRuntime) {
    // an offset of slot A, the byte there, and what is found
    const CASES: [(usize, u8, Found); 18] = [
        (0, 0, Found::Nothing),
        (0, 255, Found::Nothing),
        (1, 0, Found::Damaged(Slot::A, 1)),
        (4, b'3', Found::Damaged(Slot::A, 1)),
        (5, 0, Found::Damaged(Slot::A, 5)),
        (12, 64, Found::Damaged(Slot::A, 5)),
        (15, 16, Found::Damaged(Slot::A, 13)),
        (16, 1, Found::Damaged(Slot::A, 13)),
        (17, 32, Found::Damaged(Slot::A, 17)),
        (146, 0, Found::Entries(0, None)),
        (146, 255, Found::Entries(0, None)),
        (147, 24, Found::Entries(0, Some(146))),
        (147, 22, Found::Entries(0, Some(146))),
        (151, 19, Found::Entries(0, Some(146))),
        (173, 1, Found::Entries(0, Some(146))),
        (173, 17, Found::Entries(0, Some(146))),
        (174, 1, Found::Entries(1, Some(174))),
        (174, 2, Found::Entries(1, None)),
    ];
    for (at, byte, want) in CASES {
        let mut slot = *OLD_SLOT;
        assert!(rt; at < slot.len());
        slot[at] = byte;
        let found = found_on(rt.alloc(), &slot, b"").expect(&rt, "room");
        assert_gives!(rt; (at, byte, found), (at, byte, want));
    }
}

// the first entry of a journal as it was scanned
fn first_of(entries: &EntryList) -> Option<&Accepted>
    requires { IsTrue (are_within entries.now) }
    ensures { IfSome result (λ entry. IsTrue (is_within entry.now.line entry.now.answers)) }
{
    entries.as_slice().first()
}

#[test]
fn a_scanned_entry_can_be_written_again(rt: HostRuntime) {
    let mut disk = MemoryDisk::new(rt.alloc(), SLOT, b"", 512, 16).expect(&rt, "room");
    let mut length = None;
    if let Ok(Some(scanned)) = scan(rt.alloc(), &mut disk) {
        if let Some(first) = first_of(&scanned.entries) {
            let entry = make_entry(rt.alloc(), first.line.as_slice(), &first.answers);
            length = Some(entry.expect(&rt, "room").len());
        }
    }
    assert_gives!(rt; length, Some(28));
}

#[test]
fn the_greater_epoch_is_in_use(rt: HostRuntime) {
    // the bytes at 1, 5 and 146 of slot A and of slot B, and what is found
    const CASES: [([u8; 3], [u8; 3], Found); 6] = [
        ([b'X', 1, 1], [b'X', 2, 0], Found::Entries(0, None)),
        ([b'X', 2, 1], [b'X', 1, 0], Found::Entries(1, None)),
        ([b'X', 1, 1], [b'X', 1, 0], Found::Damaged(Slot::B, 5)),
        ([0, 1, 1], [0, 1, 0], Found::Damaged(Slot::B, 5)),
        ([0, 1, 1], [b'X', 2, 0], Found::Entries(0, None)),
        ([b'X', 2, 1], [0, 3, 0], Found::Damaged(Slot::B, 1)),
    ];
    for (a, b, want) in CASES {
        let found = found_on(rt.alloc(), &slot_with(a), &slot_with(b)).expect(&rt, "room");
        assert_gives!(rt; (a, b, found), (a, b, want));
    }
}

// the slot with these bytes at 1, 5 and 146
fn slot_with([tag, epoch, gate]: [u8; 3]) -> [u8; 175] {
    let mut slot = *OLD_SLOT;
    slot[1] = tag;
    slot[5] = epoch;
    slot[146] = gate;
    slot
}

/// A fill for the bytes that were written since the last sync, and how far a slot may have grown.
pub(crate) const CRASHES: [(Option<u8>, u64); 8] = [
    (None, 0),
    (None, 1 << 26),
    (Some(0), 0),
    (Some(0), 1 << 26),
    (Some(1), 0),
    (Some(1), 1 << 26),
    (Some(255), 0),
    (Some(255), 1 << 26),
];

/// Makes a journal in slot A, and in it one entry, as far as the calls go. It says how far they went.
fn run(disk: &mut FusedDisk<MemoryDisk>, image: &Image, entry: &Entry) -> u8 {
    if image.form.len() > 1 << 20 || image.base.len() > 2 || entry.len() > 28 {
        return 0;
    }
    let Ok(mut journal) = create(disk, Slot::A, 1, image) else {
        return 0;
    };
    let stands = disk.disk.held(journal.slot()).len() as u64;
    if journal.used() > stands || journal.used() > 256 || journal.append(disk, entry).is_err() {
        return 1;
    }
    2
}

/// Whether a crash may leave what is found, where the calls went so far.
fn is_right(now: Found, done: u8) -> bool {
    match now {
        Found::Nothing => done == 0,
        Found::Entries(0, None) => done < 2,
        Found::Entries(1, None) => done > 0,
        _ => false,
    }
}

/// What is found after some crash and may not be left, where the calls went so far.
fn wrong_after(alloc: Global, disk: &MemoryDisk, done: u8) -> Result<Option<Found>, AllocError> {
    for (fill, grown) in CRASHES {
        let left = disk.after_crash(alloc, fill, grown)?;
        let now = found_on(alloc, left.held(Slot::A), left.held(Slot::B))?;
        if !is_right(now, done) {
            return Ok(Some(now));
        }
    }
    Ok(None)
}

#[test]
fn each_stop_leaves_what_was_acknowledged(rt: HostRuntime) {
    let image = image(rt.alloc()).expect(&rt, "room");
    let entry = make_entry(rt.alloc(), LINE, &Answers::new(rt.alloc())).expect(&rt, "room");
    for calls in 0..16u64 {
        let inner = MemoryDisk::new(rt.alloc(), b"", b"", 256, 64).expect(&rt, "room");
        let mut disk = FusedDisk::new(inner, calls);
        let done = run(&mut disk, &image, &entry);
        let wrong = wrong_after(rt.alloc(), &disk.disk, done).expect(&rt, "room");
        assert_gives!(rt; (calls, done, wrong), (calls, done, None));
    }
}
