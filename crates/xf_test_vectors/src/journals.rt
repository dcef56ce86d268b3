//! The calls of xf_journal, over disks in memory. Bytes are spelt by words: hexadecimal digits, or `'` and a text.

use crate::calls::{Answer, spelt};
use std::alloc::{AllocError, Global};
use xf_disk::{Disk, FusedDisk, MemoryDisk, Slot};
use xf_io::Bytes;
use xf_journal::{Image, Journal, JournalFault, Scanned, make_entry, scan};
use xf_name::Word;
use xf_store::Answers;

/// The most bytes of a slot here, and the most calls of a disk.
const ROOM: usize = 4096;

const CALLS: usize = 64;

pub fn answer(alloc: Global, call: &str, given: &[Word]) -> Answer {
    match (call, given) {
        ("scan", [a, b]) => scanned(alloc, a, b),
        ("cut", [slot, from, most]) => cut(alloc, slot, from, most),
        ("append", [a, b, line]) => appended(alloc, a, b, line),
        ("renew", [a, b, image @ ..]) => renewed(alloc, a, b, image),
        ("stops", [a, b, fill, grown, image @ ..]) => match crash_of(fill, grown) {
            Some(crash) => stopped(alloc, a, b, crash, image),
            None => Ok(None),
        },
        _ => Ok(None),
    }
}

/// The bytes of both slots, or none where words spell none.
fn slots_of(alloc: Global, a: &Word, b: &Word) -> Result<Option<(Vec<u8>, Vec<u8>)>, AllocError> {
    let Some(a) = spelt(alloc, a.as_str())? else {
        return Ok(None);
    };
    let Some(b) = spelt(alloc, b.as_str())? else {
        return Ok(None);
    };
    Ok(Some((a, b)))
}

/// What the slots hold.
fn scanned(alloc: Global, a: &Word, b: &Word) -> Answer {
    match slots_of(alloc, a, b)? {
        Some((a, b)) => Ok(Some(found_in(alloc, &a, &b)?)),
        None => Ok(None),
    }
}

fn found_in(alloc: Global, a: &[u8], b: &[u8]) -> Result<String, AllocError> {
    let mut disk = MemoryDisk::new(alloc, a, b, ROOM, CALLS)?;
    match scan(alloc, &mut disk) {
        Ok(Some(scanned)) => journal_text(alloc, &scanned),
        Ok(None) => String::from_str(alloc, "none"),
        Err(fault) => fault_text(alloc, fault),
    }
}

fn fault_text(alloc: Global, fault: JournalFault) -> Result<String, AllocError> {
    match fault {
        JournalFault::Damaged(slot, at) => {
            let slot = slot_text(slot);
            format!(in alloc; "damaged {slot} {at}")
        }
        JournalFault::DiskFault => String::from_str(alloc, "fault"),
        JournalFault::Memory => Err(AllocError),
    }
}

fn slot_text(slot: Slot) -> &'static str {
    match slot {
        Slot::A => "A",
        Slot::B => "B",
    }
}

/// Its slot and epoch, how often the form was changed, the bytes of the form and of the base, the entries, and where they are cut.
fn journal_text(alloc: Global, scanned: &Scanned) -> Result<String, AllocError> {
    let slot = slot_text(scanned.journal.slot());
    let epoch = scanned.journal.epoch();
    let adoptions = scanned.adoptions;
    let form = scanned.form.len();
    let base = hex::encode(alloc, scanned.base.as_slice())?;
    let entries = scanned.journal.count();
    match scanned.cut {
        Some(at) => format!(in alloc;
            "{slot} epoch {epoch} adoptions {adoptions} form {form} base {base} entries {entries} cut {at}"
        ),
        None => format!(in alloc;
            "{slot} epoch {epoch} adoptions {adoptions} form {form} base {base} entries {entries} whole"
        ),
    }
}

/// What slot A holds, cut to each length from the first to the second, where that is the same for all.
fn cut(alloc: Global, slot: &Word, from: &Word, most: &Word) -> Answer {
    let Some(bytes) = spelt(alloc, slot.as_str())? else {
        return Ok(None);
    };
    match (
        from.as_str().parse::<usize>(),
        most.as_str().parse::<usize>(),
    ) {
        (Ok(from), Ok(most)) => found_cut(alloc, &bytes, from, most),
        _ => Ok(None),
    }
}

fn found_cut(alloc: Global, bytes: &[u8], from: usize, most: usize) -> Answer {
    let mut told: Option<String> = None;
    for n in from..=most {
        let Some(front) = bytes.get(..n) else {
            return Ok(None);
        };
        let found = found_in(alloc, front, b"")?;
        if told.is_some_and(|text| text != found) {
            return Ok(Some(String::from_str(alloc, "several")?));
        }
        told = Some(found);
    }
    Ok(told)
}

/// The bytes of the slot in use after a line is appended without answers.
fn appended(alloc: Global, a: &Word, b: &Word, line: &Word) -> Answer {
    let Some((a, b)) = slots_of(alloc, a, b)? else {
        return Ok(None);
    };
    let mut disk = MemoryDisk::new(alloc, &a, &b, ROOM, CALLS)?;
    let Ok(Some(scanned)) = scan(alloc, &mut disk) else {
        return Ok(None);
    };
    let mut journal = scanned.journal;
    if !append_to(alloc, &mut disk, &mut journal, line.as_bytes())? {
        return Ok(None);
    }
    Ok(Some(hex::encode(alloc, disk.held(journal.slot()))?))
}

/// Whether the line had room and was appended.
fn append_to(
    alloc: Global,
    disk: &mut MemoryDisk,
    journal: &mut Journal,
    line: &[u8],
) -> Result<bool, AllocError> {
    if line.len() > ROOM {
        return Ok(false);
    }
    let entry = make_entry(alloc, line, &Answers::new(alloc))?;
    let stands = disk.held(journal.slot()).len() as u64;
    if journal.used() > stands || journal.used() > 1 << 20 || entry.len() > 1 << 20 {
        return Ok(false);
    }
    Ok(journal.append(disk, &entry).is_ok())
}

/// How often the form was changed, the form and the base of a new image.
fn image_of(alloc: Global, given: &[Word]) -> Result<Option<Image>, AllocError> {
    let [adoptions, form, base] = given else {
        return Ok(None);
    };
    let Ok(adoptions) = adoptions.as_str().parse::<u32>() else {
        return Ok(None);
    };
    match slots_of(alloc, form, base)? {
        Some((form, base)) => Ok(Some(Image {
            adoptions,
            form: Bytes::from_vec(form),
            base: Bytes::from_vec(base),
        })),
        None => Ok(None),
    }
}

/// The slot of the journal that takes the place of that in the slots, and its bytes.
fn renewed(alloc: Global, a: &Word, b: &Word, image: &[Word]) -> Answer {
    let Some((a, b)) = slots_of(alloc, a, b)? else {
        return Ok(None);
    };
    let Some(image) = image_of(alloc, image)? else {
        return Ok(None);
    };
    let mut disk = MemoryDisk::new(alloc, &a, &b, ROOM, CALLS)?;
    let Some(slot) = renew_on(alloc, &mut disk, &image) else {
        return Ok(None);
    };
    let name = slot_text(slot);
    let bytes = hex::encode(alloc, disk.held(slot))?;
    Ok(Some(format!(in alloc; "{name} {bytes}")?))
}

/// Opens the slots and writes the image, as far as the calls go. It gives the slot of the new journal.
fn renew_on<D: Disk>(alloc: Global, disk: &mut D, image: &Image) -> Option<Slot> {
    let Ok(Some(scanned)) = scan(alloc, disk) else {
        return None;
    };
    if image.form.len() > 1 << 20 || image.base.len() > 1 << 20 {
        return None;
    }
    match scanned.journal.renew(disk, image) {
        Ok(journal) => Some(journal.slot()),
        Err(_) => None,
    }
}

/// A fill for the bytes that were written since the last sync, or none, and how far a slot may have grown.
fn crash_of(fill: &Word, grown: &Word) -> Option<(Option<u8>, u64)> {
    let Ok(grown) = grown.as_str().parse::<u64>() else {
        return None;
    };
    match fill.as_str().parse::<u8>() {
        Ok(fill) => Some((Some(fill), grown)),
        Err(_) if fill.as_str() == "none" => Some((None, grown)),
        Err(_) => None,
    }
}

/// What opens after a crash at each call of an opening and of the writing of an image, in turn: the slot and the epoch in use.
fn stopped(alloc: Global, a: &Word, b: &Word, crash: (Option<u8>, u64), image: &[Word]) -> Answer {
    let Some((a, b)) = slots_of(alloc, a, b)? else {
        return Ok(None);
    };
    let Some(image) = image_of(alloc, image)? else {
        return Ok(None);
    };
    Ok(Some(stops_of(alloc, &a, &b, crash, &image)?))
}

fn stops_of(
    alloc: Global,
    a: &[u8],
    b: &[u8],
    (fill, grown): (Option<u8>, u64),
    image: &Image,
) -> Result<String, AllocError> {
    let mut text = String::new(alloc);
    for calls in 0..CALLS as u64 {
        let inner = MemoryDisk::new(alloc, a, b, ROOM, CALLS)?;
        let mut disk = FusedDisk::new(inner, calls);
        let is_done = renew_on(alloc, &mut disk, image).is_some();
        let mut left = disk.disk.after_crash(alloc, fill, grown)?;
        if calls > 0 {
            text.push_str(" ")?;
        }
        text.push_str(opened_on(alloc, &mut left)?.as_str())?;
        if is_done {
            break;
        }
    }
    Ok(text)
}

/// The slot and the epoch in use.
fn opened_on(alloc: Global, disk: &mut MemoryDisk) -> Result<String, AllocError> {
    match scan(alloc, disk) {
        Ok(Some(scanned)) => {
            let slot = slot_text(scanned.journal.slot());
            let epoch = scanned.journal.epoch();
            format!(in alloc; "{slot}{epoch}")
        }
        Ok(None) => String::from_str(alloc, "none"),
        Err(fault) => fault_text(alloc, fault),
    }
}
