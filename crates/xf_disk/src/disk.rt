//! Two slots of bytes that outlast a crash.
ghost use Rattle.std.specs.Prelude.{◌≡◌, ◌≤◌, ◌+◌, ◌-◌, ◌++◌, ℕ, Bool, IsTrue, length, take, drop, min, OnOk, OnErr, IfOk};
ghost use Rattle.xf_base.specs.Faults.{HasCause};
ghost use Rattle.xf_disk.specs.Image.{Image, in_slot, beside};
ghost use Rattle.xf_disk.specs.Crash.{Torn, InSlot, Follows, LeavesNoMore, LeavesAll, Elapses};

use crate::Slot;
use xf_io::Failed;

/// Two slots of bytes that outlast a crash. A disk that keeps the model below tells so, before a call
/// exactly where after it. No call takes memory, and each answers `Failed` only where the count of
/// faults rose.
///
/// Between two syncs of a slot a crash may leave any bytes in each range that was written and past the
/// old end, and any length from the old to the new end. The other bytes stay, and so does the slot beside.
pub trait Disk {
    /// Whether the disk keeps the model: a real one does not say so.
    ghost tells: { Self → Bool };

    /// What a read gives.
    ghost seen: { Self → Image };

    /// What a crash at this moment may leave.
    ghost may_leave: { Self → Image → Type 0 };

    /// The moment, as a number that does not fall.
    ghost moment: { Self → ℕ };

    /// What a crash at some moment from that one on might have left, during a call or between two.
    ghost left_since: { Self → ℕ → Image → Type 0 };

    /// How often a call has failed.
    ghost faults: { Self → ℕ };

    /// The number of bytes in the slot.
    fn len(&mut self, slot: Slot) -> Result<u64, Failed>
        ensures length { IsTrue (tells self.old) → IfOk result (λ bytes. bytes ≡ length (in_slot slot (seen self.old))) }
        ensures seen { seen self.new ≡ seen self.old }
        ensures crash { LeavesNoMore (may_leave self.old) (may_leave self.new) }
        ensures time { Elapses (moment self.old) (moment self.new) (left_since self.old) (left_since self.new) (may_leave self.new) }
        ensures tells { tells self.new ≡ tells self.old }
        ensures cause { HasCause (faults self.old) (faults self.new) result };

    /// Reads the bytes that stand from an offset on, as many as fit. After `Failed` the buffer holds any bytes.
    fn read(&mut self, slot: Slot, at: u64, into: &mut [u8]) -> Result<usize, Failed>
        ensures within { IfOk result (λ count. count ≤ length into.old) }
        ensures bytes { IsTrue (tells self.old) → IfOk result (λ count. (count ≡ min (length into.old) (length (in_slot slot (seen self.old)) - at))
            × (into.new ≡ take count (drop at (in_slot slot (seen self.old))) ++ drop count into.old)) }
        ensures seen { seen self.new ≡ seen self.old }
        ensures crash { LeavesNoMore (may_leave self.old) (may_leave self.new) }
        ensures time { Elapses (moment self.old) (moment self.new) (left_since self.old) (left_since self.new) (may_leave self.new) }
        ensures tells { tells self.new ≡ tells self.old }
        ensures cause { HasCause (faults self.old) (faults self.new) result };

    /// Writes over what stands, and past the end. One that fails may have been made in part.
    fn write(&mut self, slot: Slot, at: u64, bytes: &[u8]) -> Result<(), Failed>
        requires { IsTrue (tells self.old) → at ≤ length (in_slot slot (seen self.old)) }
        ensures written { IsTrue (tells self.old) → OnOk result (in_slot slot (seen self.new)
            ≡ take at (in_slot slot (seen self.old)) ++ bytes.now ++ drop (at + length bytes.now) (in_slot slot (seen self.old))) }
        ensures torn { IsTrue (tells self.old) → InSlot slot (Torn at (length bytes.now)) (seen self.old) (seen self.new) }
        ensures crash { Follows (InSlot slot (Torn at (length bytes.now))) (may_leave self.old) (may_leave self.new) }
        ensures time { Elapses (moment self.old) (moment self.new) (left_since self.old) (left_since self.new) (may_leave self.new) }
        ensures tells { tells self.new ≡ tells self.old }
        ensures cause { HasCause (faults self.old) (faults self.new) result };

    /// After it a crash leaves in this slot what a read gives. One that fails has done nothing.
    fn sync(&mut self, slot: Slot) -> Result<(), Failed>
        ensures durable { IsTrue (tells self.old) → OnOk result (LeavesAll (may_leave self.new)
            (λ image. in_slot slot image ≡ in_slot slot (seen self.old))) }
        ensures seen { seen self.new ≡ seen self.old }
        ensures crash { LeavesNoMore (may_leave self.old) (may_leave self.new) }
        ensures time { Elapses (moment self.old) (moment self.new) (left_since self.old) (left_since self.new) (may_leave self.new) }
        ensures tells { tells self.new ≡ tells self.old }
        ensures cause { HasCause (faults self.old) (faults self.new) result };

    /// This moment is one of those since an earlier one.
    ghost counts_now: { (disk : Self) (t : ℕ) (image : Image) → t ≤ moment disk → may_leave disk image → left_since disk t image };

    /// Since this moment there is no other.
    ghost only_now: { (disk : Self) (image : Image) → left_since disk (moment disk) image → may_leave disk image };

    /// What a read gives is one of the images that a crash may leave.
    ghost seen_may_stand: { (disk : Self) → IsTrue (tells disk) → may_leave disk (seen disk) };
}
