//! A write with a sync behind it.
ghost use Rattle.std.specs.Prelude.{◌≡◌, ◌≤◌, length, IsTrue, OnOk};
ghost use Rattle.xf_base.specs.Faults.{HasCause};
ghost use Rattle.xf_disk.specs.Image.{in_slot, beside};
ghost use Rattle.xf_disk.specs.Marks.{spliced};
ghost use Rattle.xf_disk.specs.Crash.{Torn, IsSettled, LeavesOnly};
ghost use Rattle.xf_journal.specs.Moments.{MightStep};

use xf_disk::{Disk, Slot};
use xf_io::Failed;

/// Writes bytes to a slot and syncs it.
pub(crate) fn write_synced<D: Disk>(
    disk: &mut D,
    slot: Slot,
    at: u64,
    bytes: &[u8],
) -> Result<(), Failed>
    requires { IsTrue (D.tells disk.old) → at ≤ length (in_slot slot (D.seen disk.old)) }
    ensures written { IsTrue (D.tells disk.old) → OnOk result (in_slot slot (D.seen disk.new) ≡ spliced at bytes.now (in_slot slot (D.seen disk.old))) }
    ensures beside { IsTrue (D.tells disk.old) → in_slot (beside slot) (D.seen disk.new) ≡ in_slot (beside slot) (D.seen disk.old) }
    ensures settled { IsTrue (D.tells disk.old) → IsSettled (D.seen disk.old) (D.may_leave disk.old) → OnOk result (IsSettled (D.seen disk.new) (D.may_leave disk.new)) }
    ensures each_moment { LeavesOnly D.moment D.left_since disk.old disk.new (MightStep slot (Torn at (length bytes.now)) (D.may_leave disk.old)) }
    ensures tells { D.tells disk.new ≡ D.tells disk.old }
    ensures cause { HasCause (D.faults disk.old) (D.faults disk.new) result }
{
    disk.write(slot, at, bytes)?;
    disk.sync(slot)
}
