//! A journal in a slot: where its entries end, and how one more is added.
ghost use Rattle.std.specs.Prelude.{◌≡◌, ◌≤◌, ◌<◌, ◌+◌, ◌-◌, ◌^◌, min, length, IsTrue, IfOk, OnOk, OnErr};
ghost use Rattle.xf_base.specs.Faults.{HasCause};
ghost use Rattle.xf_base.specs.Limits.{form_limit, slot_limit};
ghost use Rattle.xf_disk.specs.Image.{in_slot, beside};
ghost use Rattle.xf_disk.specs.Crash.{LeavesOnly};

use crate::step::write_synced;
use crate::{Entry, Image, create};
use xf_disk::{Disk, Slot};
use xf_io::Failed;

/// A journal in a slot of a disk. After an append that failed it is to be read again.
#[derive(Debug, Drop)]
pub struct Journal {
    pub(crate) slot: Slot,
    pub(crate) epoch: u64,
    pub(crate) count: u64,
    pub(crate) used: u64,
}

impl Journal {
    ghost use Rattle.xf_journal.specs.Entry.{written_bytes};
    ghost use Rattle.xf_journal.specs.Held.{Log};
    ghost use Rattle.xf_journal.specs.Scanned.{journal_of, new_log, IsAtRest, MayRenew, HoldsEither, with_accepted, renewed};

    pub fn slot(&self) -> Slot
        ensures { result ≡ self.now.slot }
    {
        self.slot
    }

    pub fn epoch(&self) -> u64
        ensures { result ≡ self.now.epoch }
    {
        self.epoch
    }

    /// The number of entries.
    pub fn count(&self) -> u64
        ensures { result ≡ self.now.count }
    {
        self.count
    }

    /// The bytes in use, the last gate included.
    pub fn used(&self) -> u64
        ensures { result ≡ self.now.used }
    {
        self.used
    }

    /// Adds an entry by four calls of the disk: its bytes behind the closed gate, a sync, the gate, and a sync.
    /// It is for the journal that the slots hold, of which no append has failed. A crash at any moment leaves
    /// the entries from before, or the new one also; after `Ok` each crash leaves it.
    pub fn append<D: Disk>(&mut self, disk: &mut D, entry: &Entry) -> Result<(), Failed>
        requires room { self.old.used + length (written_bytes entry.now.line entry.now.answers) ≤ slot_limit }
        requires stands { IsTrue (D.tells disk.old) → self.old.used ≤ length (in_slot self.old.slot (D.seen disk.old)) }
        ensures each_moment { IsTrue (D.tells disk.old) → (log : Log) → IsAtRest D.seen D.may_leave self.old log disk.old
            → LeavesOnly D.moment D.left_since disk.old disk.new (HoldsEither log (with_accepted log entry.now.line entry.now.answers)) }
        ensures done { IsTrue (D.tells disk.old) → (log : Log) → IsAtRest D.seen D.may_leave self.old log disk.old
            → OnOk result (IsAtRest D.seen D.may_leave self.new (with_accepted log entry.now.line entry.now.answers) disk.new) }
        ensures err { OnErr result (self.new ≡ self.old) }
        ensures tells { D.tells disk.new ≡ D.tells disk.old }
        ensures cause { HasCause (D.faults disk.old) (D.faults disk.new) result }
    {
        let written = entry.bytes();
        let gate = self.used.saturating_sub(1);
        write_synced(disk, self.slot, self.used, written)?;
        write_synced(disk, self.slot, gate, &[1])?;
        self.count = self.count.saturating_add(1);
        self.used += written.len() as u64;
        Ok(())
    }
    /// Writes a journal without entries that takes the place of this one: into the other slot, with the next epoch. A
    /// crash at any moment leaves this journal or the new one; after `Ok` each crash leaves the new one.
    pub fn renew<D: Disk>(&self, disk: &mut D, image: &Image) -> Result<Journal, Failed>
        requires form { length image.now.form ≤ form_limit }
        requires room { 26 + length image.now.form + length image.now.base ≤ slot_limit }
        ensures journal { IfOk result (λ journal. journal ≡ journal_of (new_log (beside self.now.slot) (min (self.now.epoch + 1) (2 ^ 64 - 1)) image.now)) }
        ensures each_moment { IsTrue (D.tells disk.old) → (log : Log) → MayRenew D.seen D.may_leave self.now log image.now disk.old
            → LeavesOnly D.moment D.left_since disk.old disk.new (HoldsEither log (renewed log image.now)) }
        ensures done { IsTrue (D.tells disk.old) → (log : Log) → MayRenew D.seen D.may_leave self.now log image.now disk.old
            → IfOk result (λ journal. IsAtRest D.seen D.may_leave journal (renewed log image.now) disk.new) }
        ensures tells { D.tells disk.new ≡ D.tells disk.old }
        ensures cause { HasCause (D.faults disk.old) (D.faults disk.new) result }
    {
        let epoch = self.epoch.saturating_add(1);
        create(disk, self.slot.beside(), epoch, image)
    }
}
