//! A disk that keeps no model, whose slot A is cut while it is scanned: no clause speaks of it.
ghost use Rattle.std.specs.Prelude.{◌≡◌, ◌≤◌, length, IfOk};
ghost use Rattle.xf_base.specs.Faults.{HasCause};

use xf_disk::{Disk, Slot};
use xf_io::Failed;
use xf_journal::{JournalFault, Scanned, scan};

/// Slot A has these bytes, and so many of them from the third read on. Slot B is empty.
#[derive(Drop)]
struct ShrinkingDisk<'a> {
    bytes: &'a [u8],
    left: usize,
    reads: u64,
}

impl ShrinkingDisk<'_> {
    /// The bytes that stand in the slot.
    fn held(&self, slot: Slot) -> &[u8] {
        match slot {
            Slot::A if self.reads < 3 => self.bytes,
            Slot::A => &self.bytes[..self.left.min(self.bytes.len())],
            Slot::B => &[],
        }
    }
}

impl Disk for ShrinkingDisk<'_> {
    ghost use Rattle.std.specs.Prelude.{false};
    ghost use Rattle.xf_disk.specs.Image.{nothing};
    ghost use Rattle.xf_disk.specs.Laws.{untold};

    ghost tells = { λ _. false };

    ghost seen = { λ _. nothing };

    ghost may_leave = { λ _ _. ⊥ };

    ghost moment = { λ _. 0 };

    ghost left_since = { λ _ _ _. ⊥ };

    ghost faults = { λ _. 0 };

    ghost counts_now = { λ _ _ _ _ left. left };

    ghost only_now = { λ _ _ left. left };

    ghost seen_may_stand = { λ _ told. untold told };

    fn len(&mut self, slot: Slot) -> Result<u64, Failed> {
        Ok(self.held(slot).len() as u64)
    }

    fn read(&mut self, slot: Slot, at: u64, into: &mut [u8]) -> Result<usize, Failed> {
        self.reads = self.reads.saturating_add(1);
        let held = self.held(slot);
        let from = (at as usize).min(held.len());
        let count = into.len().min(held.len() - from);
        into[..count].copy_from_slice(&held[from..from + count]);
        Ok(count)
    }

    fn write(&mut self, _slot: Slot, _at: u64, _bytes: &[u8]) -> Result<(), Failed> {
        Ok(())
    }

    fn sync(&mut self, _slot: Slot) -> Result<(), Failed> {
        Ok(())
    }
}

/// Whether a slot is damaged at 1, or is sound and has no entry. Else none.
fn tells_damage(scanned: &Result<Option<Scanned>, JournalFault>) -> Option<bool> {
    match scanned {
        Err(JournalFault::Damaged(Slot::A, 1)) => Some(true),
        Ok(Some(scanned)) if scanned.entries.is_empty() => Some(false),
        _ => None,
    }
}

#[test]
fn a_slot_that_shrinks_is_no_missing_journal(rt: HostRuntime) {
    // an open slot without a form and a base, one byte longer than a header
    const SLOT: &[u8; 22] = b"\x01XFS1\x01\0\0\0\0\0\0\0\0\0\0\0\0\0\0\0\0";
    // the bytes that are left, and whether the slot is damaged at 1
    const CASES: [(usize, bool); 4] = [(0, true), (1, true), (21, true), (22, false)];
    for (left, damaged) in CASES {
        let mut disk = ShrinkingDisk {
            bytes: SLOT,
            left,
            reads: 0,
        };
        let scanned = scan(rt.alloc(), &mut disk);
        assert_gives!(rt; (left, tells_damage(&scanned)), (left, Some(damaged)));
    }
}
