//! Opening the slots: both are synced, and then read.
ghost use Rattle.std.specs.Prelude.{◌≡◌, IsTrue, OnOk, IfOk, IfErr, IfSome};
ghost use Rattle.xf_base.specs.Faults.{HasCause};
ghost use Rattle.xf_base.specs.Gives.{GivesOver};
ghost use Rattle.xf_disk.specs.Image.{in_slot};
ghost use Rattle.xf_disk.specs.Crash.{IsSettled};
ghost use Rattle.xf_journal.specs.Entry.{are_within};
ghost use Rattle.xf_journal.specs.Layout.{open_epoch};
ghost use Rattle.xf_journal.specs.Held.{chosen, in_use, held};
ghost use Rattle.xf_journal.specs.Scanned.{scan_of};
ghost use Rattle.xf_journal.specs.Moments.{OnlyLooks, IsOutside, HasDiskCause, OnceSynced};

use crate::layout::open_epoch;
use crate::read::read_slot;
use crate::{JournalFault, Scanned};
use std::alloc::Global;
use xf_disk::{Disk, Slot};
use xf_io::Failed;

/// Syncs both slots, and then reads what they hold: `None` where both are closed. It writes nothing, and once
/// the syncs have succeeded a crash leaves what a read gives.
pub fn scan<D: Disk>(alloc: Global, disk: &mut D) -> Result<Option<Scanned>, JournalFault>
    ensures held { IsTrue (D.tells disk.old) → GivesOver IsOutside (λ found. found) result (scan_of (held (D.seen disk.old))) }
    ensures within { IfOk result (λ found. IfSome found (λ scanned. IsTrue (are_within scanned.entries))) }
    ensures looks { OnlyLooks D.tells D.seen D.may_leave D.moment D.left_since disk.old disk.new }
    ensures settled { IsTrue (D.tells disk.old) → OnceSynced result (IsSettled (D.seen disk.new) (D.may_leave disk.new)) }
    ensures cause { HasDiskCause (D.faults disk.old) (D.faults disk.new) result }
{
    settle(disk)?;
    let Some(slot) = slot_in_use(disk)? else {
        return Ok(None);
    };
    let bytes = all_bytes(alloc, disk, slot)?;
    // A disk that keeps no model may have cut the slot in between.
    if bytes.len() < 22 {
        return Err(JournalFault::Damaged(slot, 1));
    }
    match read_slot(alloc, slot, &bytes) {
        Ok(scanned) => Ok(Some(scanned)),
        Err(fault) => Err(fault),
    }
}

/// Syncs both slots.
fn settle<D: Disk>(disk: &mut D) -> Result<(), Failed>
    ensures looks { OnlyLooks D.tells D.seen D.may_leave D.moment D.left_since disk.old disk.new }
    ensures settled { IsTrue (D.tells disk.old) → OnOk result (IsSettled (D.seen disk.new) (D.may_leave disk.new)) }
    ensures cause { HasCause (D.faults disk.old) (D.faults disk.new) result }
{
    disk.sync(Slot::A)?;
    disk.sync(Slot::B)
}

/// The slot in use: the open one with the greater epoch.
fn slot_in_use<D: Disk>(disk: &mut D) -> Result<Option<Slot>, JournalFault>
    ensures slot { IsTrue (D.tells disk.old) → GivesOver IsOutside (λ slot. slot) result (in_use (D.seen disk.old)) }
    ensures looks { OnlyLooks D.tells D.seen D.may_leave D.moment D.left_since disk.old disk.new }
    ensures cause { HasDiskCause (D.faults disk.old) (D.faults disk.new) result }
{
    let a = epoch_of(disk, Slot::A)?;
    let b = epoch_of(disk, Slot::B)?;
    chosen(a, b)
}

/// The epoch of a slot, where it is open.
fn epoch_of<D: Disk>(disk: &mut D, slot: Slot) -> Result<Option<u64>, Failed>
    ensures epoch { IsTrue (D.tells disk.old) → IfOk result (λ epoch. epoch ≡ open_epoch (in_slot slot (D.seen disk.old))) }
    ensures looks { OnlyLooks D.tells D.seen D.may_leave D.moment D.left_since disk.old disk.new }
    ensures cause { HasCause (D.faults disk.old) (D.faults disk.new) result }
{
    let mut head = [0u8; 22];
    let count = disk.read(slot, 0, &mut head)?;
    Ok(open_epoch(&head[..count]))
}

/// The slot in use, by the epochs of those that are open.
fn chosen(a: Option<u64>, b: Option<u64>) -> Result<Option<Slot>, JournalFault>
    ensures { result ≡ chosen a b }
{
    match (a, b) {
        (None, None) => Ok(None),
        (Some(_), None) => Ok(Some(Slot::A)),
        (None, Some(_)) => Ok(Some(Slot::B)),
        (Some(a), Some(b)) if a == b => Err(JournalFault::Damaged(Slot::B, 5)),
        (Some(a), Some(b)) => Ok(Some(if b < a { Slot::A } else { Slot::B })),
    }
}

/// All bytes of a slot.
fn all_bytes<D: Disk>(alloc: Global, disk: &mut D, slot: Slot) -> Result<Vec<u8>, JournalFault>
    ensures bytes { IsTrue (D.tells disk.old) → IfOk result (λ bytes. bytes.items ≡ in_slot slot (D.seen disk.old)) }
    ensures outside { IfErr result IsOutside }
    ensures looks { OnlyLooks D.tells D.seen D.may_leave D.moment D.left_since disk.old disk.new }
    ensures cause { HasDiskCause (D.faults disk.old) (D.faults disk.new) result }
{
    let length = disk.len(slot)? as usize;
    let mut bytes = vec![in alloc; 0u8; length]?;
    let count = disk.read(slot, 0, &mut bytes)?;
    bytes.truncate(count);
    Ok(bytes)
}
