//! A new journal in a slot.
ghost use Rattle.std.specs.Prelude.{◌≡◌, ◌≤◌, ◌+◌, ◌++◌, ◌∷◌, [], ◌^◌, length, IsTrue, OnOk, IfOk};
ghost use Rattle.xf_base.specs.Faults.{HasCause};
ghost use Rattle.xf_base.specs.Limits.{form_limit, slot_limit};
ghost use Rattle.xf_disk.specs.Image.{in_slot, beside};
ghost use Rattle.xf_disk.specs.Marks.{spliced};
ghost use Rattle.xf_disk.specs.Crash.{InSlot, IsSettled, LeavesAll, LeavesOnly};
ghost use Rattle.xf_journal.specs.Layout.{header_bytes, new_bytes};
ghost use Rattle.xf_journal.specs.Moments.{MightStep, SameGate, IsShut, Closes};
ghost use Rattle.xf_journal.specs.Scanned.{journal_of, new_log, IsReady, IsAtRest, HoldsOldOr};

use crate::number::{eight, four};
use crate::step::write_synced;
use crate::{Image, Journal};
use xf_disk::{Disk, Slot};
use xf_io::Failed;

/// The bytes before the form.
const HEADER: u64 = 25;

/// Writes a new journal without entries into a slot, in the second format: it closes the gate where it is open or does not
/// stand, writes all behind it, and then opens it. Where the slot is not the one in use, and the one beside it
/// is closed or has a smaller epoch, a crash at any moment leaves the old journal, if there is one, or the new
/// one; after `Ok` each crash leaves the new one.
pub fn create<D: Disk>(
    disk: &mut D,
    slot: Slot,
    epoch: u64,
    image: &Image,
) -> Result<Journal, Failed>
    requires epoch { 1 ≤ epoch }
    requires form { length image.now.form ≤ form_limit }
    requires room { 26 + length image.now.form + length image.now.base ≤ slot_limit }
    ensures journal { IfOk result (λ journal. journal ≡ journal_of (new_log slot epoch image.now)) }
    ensures each_moment { IsTrue (D.tells disk.old) → IsReady D.seen D.may_leave slot epoch image.now.adoptions disk.old
        → LeavesOnly D.moment D.left_since disk.old disk.new (HoldsOldOr (D.seen disk.old) (new_log slot epoch image.now)) }
    ensures done { IsTrue (D.tells disk.old) → IsReady D.seen D.may_leave slot epoch image.now.adoptions disk.old
        → IfOk result (λ journal. IsAtRest D.seen D.may_leave journal (new_log slot epoch image.now) disk.new) }
    ensures tells { D.tells disk.new ≡ D.tells disk.old }
    ensures cause { HasCause (D.faults disk.old) (D.faults disk.new) result }
{
    close_gate(disk, slot)?;
    write_behind(disk, slot, epoch, image)?;
    write_synced(disk, slot, 0, &[1])?;
    Ok(Journal {
        slot,
        epoch,
        count: 0,
        used: HEADER + image.form.len() as u64 + image.base.len() as u64 + 1,
    })
}

/// Closes the gate of a slot where it is open or does not stand. One that stands and is closed keeps its
/// byte: a write over it that is cut short could open what is behind it.
fn close_gate<D: Disk>(disk: &mut D, slot: Slot) -> Result<(), Failed>
    ensures each_moment { IsTrue (D.tells disk.old) → IsSettled (D.seen disk.old) (D.may_leave disk.old)
        → LeavesOnly D.moment D.left_since disk.old disk.new (InSlot slot Closes (D.seen disk.old)) }
    ensures shut { IsTrue (D.tells disk.old) → OnOk result (IsShut (in_slot slot (D.seen disk.new))) }
    ensures beside { IsTrue (D.tells disk.old) → in_slot (beside slot) (D.seen disk.new) ≡ in_slot (beside slot) (D.seen disk.old) }
    ensures settled { IsTrue (D.tells disk.old) → IsSettled (D.seen disk.old) (D.may_leave disk.old) → OnOk result (IsSettled (D.seen disk.new) (D.may_leave disk.new)) }
    ensures tells { D.tells disk.new ≡ D.tells disk.old }
    ensures cause { HasCause (D.faults disk.old) (D.faults disk.new) result }
{
    let mut gate = [0u8; 1];
    if disk.read(slot, 0, &mut gate)? == 0 || gate[0] == 1 {
        return write_synced(disk, slot, 0, &[0]);
    }
    Ok(())
}

/// Writes all that stands behind the gate of a new slot, and syncs it.
fn write_behind<D: Disk>(disk: &mut D, slot: Slot, epoch: u64, image: &Image) -> Result<(), Failed>
    requires stands { IsTrue (D.tells disk.old) → 1 ≤ length (in_slot slot (D.seen disk.old)) }
    requires form { length image.now.form ≤ form_limit }
    requires room { 26 + length image.now.form + length image.now.base ≤ slot_limit }
    ensures written { IsTrue (D.tells disk.old) → OnOk result (in_slot slot (D.seen disk.new) ≡ spliced 1 (new_bytes epoch image.now) (in_slot slot (D.seen disk.old))) }
    ensures beside { IsTrue (D.tells disk.old) → in_slot (beside slot) (D.seen disk.new) ≡ in_slot (beside slot) (D.seen disk.old) }
    ensures settled { IsTrue (D.tells disk.old) → IsSettled (D.seen disk.old) (D.may_leave disk.old) → OnOk result (IsSettled (D.seen disk.new) (D.may_leave disk.new)) }
    ensures each_moment { LeavesOnly D.moment D.left_since disk.old disk.new (MightStep slot SameGate (D.may_leave disk.old)) }
    ensures tells { D.tells disk.new ≡ D.tells disk.old }
    ensures cause { HasCause (D.faults disk.old) (D.faults disk.new) result }
{
    let [form, base] = [image.form.as_slice(), image.base.as_slice()];
    let header = header_of(epoch, form.len() as u32, base.len() as u32, image.adoptions);
    write_both(disk, slot, 1, &header, form)?;
    write_both(disk, slot, HEADER + form.len() as u64, base, &[0])?;
    disk.sync(slot)
}

/// Writes two pieces behind a gate, one behind the other.
fn write_both<D: Disk>(
    disk: &mut D,
    slot: Slot,
    at: u64,
    first: &[u8],
    second: &[u8],
) -> Result<(), Failed>
    requires behind { 1 ≤ at }
    requires small { at + length first.now ≤ 2 ^ 63 }
    requires stands { IsTrue (D.tells disk.old) → at ≤ length (in_slot slot (D.seen disk.old)) }
    ensures written { IsTrue (D.tells disk.old) → OnOk result (in_slot slot (D.seen disk.new) ≡ spliced at (first.now ++ second.now) (in_slot slot (D.seen disk.old))) }
    ensures beside { IsTrue (D.tells disk.old) → in_slot (beside slot) (D.seen disk.new) ≡ in_slot (beside slot) (D.seen disk.old) }
    ensures crash { LeavesAll (D.may_leave disk.new) (MightStep slot SameGate (D.may_leave disk.old)) }
    ensures each_moment { LeavesOnly D.moment D.left_since disk.old disk.new (MightStep slot SameGate (D.may_leave disk.old)) }
    ensures tells { D.tells disk.new ≡ D.tells disk.old }
    ensures cause { HasCause (D.faults disk.old) (D.faults disk.new) result }
{
    disk.write(slot, at, first)?;
    disk.write(slot, at + first.len() as u64, second)
}

/// The bytes behind the gate up to the form.
#[tactic(auto, unfolding(crate::specs::Numbers::eight, crate::specs::Numbers::four))]
fn header_of(epoch: u64, form: u32, base: u32, adoptions: u32) -> [u8; 24]
    ensures { result ≡ header_bytes epoch form base adoptions }
{
    let [e0, e1, e2, e3, e4, e5, e6, e7] = eight(epoch);
    let [f0, f1, f2, f3] = four(form);
    let [b0, b1, b2, b3] = four(base);
    let [g0, g1, g2, g3] = four(adoptions);
    [
        b'X', b'F', b'S', b'2', e0, e1, e2, e3, e4, e5, e6, e7, f0, f1, f2, f3, b0, b1, b2, b3, g0,
        g1, g2, g3,
    ]
}
