//! A disk that stops after so many calls.
ghost use Rattle.std.specs.Prelude.{◌≡◌, ◌↔◌, ◌+◌, ◌-◌, ◌++◌, ◌≤◌, IsTrue, length, take, drop, min, OnOk, IfOk};
ghost use Rattle.std.specs.Bool.{OnTrue};
ghost use Rattle.xf_base.specs.Faults.{Rose, HasCause};
ghost use Rattle.xf_disk.specs.Image.{in_slot};
ghost use Rattle.xf_disk.specs.Crash.{Torn, InSlot, Follows, LeavesNoMore, LeavesAll, Elapses};
ghost use Rattle.xf_disk.specs.Fused.{PassesOn};

use crate::{Disk, Slot};
use xf_io::Failed;

/// A disk that passes so many calls on and fails all later ones, which then do nothing.
#[derive(Drop)]
pub struct FusedDisk<D: Disk> {
    /// The disk that it passes calls on to.
    pub disk: D,
    /// The calls that it still passes on.
    pub left: u64,
    faults: u64,
}

impl<D: Disk> FusedDisk<D> {
    /// A disk that passes `calls` calls on to this one.
    pub fn new(disk: D, calls: u64) -> FusedDisk<D>
        ensures disk { result.disk ≡ disk }
        ensures left { result.left ≡ calls }
    {
        FusedDisk {
            disk,
            left: calls,
            faults: 0,
        }
    }
}

impl<D: Disk> Disk for FusedDisk<D> {
    ghost tells = { λ f. D.tells f.disk };

    ghost seen = { λ f. D.seen f.disk };

    ghost may_leave = { λ f. D.may_leave f.disk };

    ghost moment = { λ f. D.moment f.disk };

    ghost left_since = { λ f. D.left_since f.disk };

    ghost faults = { λ f. D.faults f.disk + f.faults };

    ghost counts_now = { λ f. D.counts_now f.disk };

    ghost only_now = { λ f. D.only_now f.disk };

    ghost seen_may_stand = { λ f. D.seen_may_stand f.disk };

    fn len(&mut self, slot: Slot) -> Result<u64, Failed>
        ensures length { IsTrue (D.tells self.old.disk) → IfOk result (λ bytes. bytes ≡ length (in_slot slot (D.seen self.old.disk))) }
        ensures seen { D.seen self.new.disk ≡ D.seen self.old.disk }
        ensures crash { LeavesNoMore (D.may_leave self.old.disk) (D.may_leave self.new.disk) }
        ensures time { Elapses (D.moment self.old.disk) (D.moment self.new.disk) (D.left_since self.old.disk) (D.left_since self.new.disk) (D.may_leave self.new.disk) }
        ensures tells { D.tells self.new.disk ≡ D.tells self.old.disk }
        ensures cause { HasCause (D.faults self.old.disk + self.old.faults) (D.faults self.new.disk + self.new.faults) result }
        ensures passes { PassesOn D.faults self.old.left self.new.left self.old.disk self.new.disk result }
    {
        if is_blown(&mut self.left, &mut self.faults) {
            return Err(Failed);
        }
        self.disk.len(slot)
    }

    fn read(&mut self, slot: Slot, at: u64, into: &mut [u8]) -> Result<usize, Failed>
        ensures within { IfOk result (λ count. count ≤ length into.old) }
        ensures bytes { IsTrue (D.tells self.old.disk) → IfOk result (λ count. (count ≡ min (length into.old) (length (in_slot slot (D.seen self.old.disk)) - at))
            × (into.new ≡ take count (drop at (in_slot slot (D.seen self.old.disk))) ++ drop count into.old)) }
        ensures seen { D.seen self.new.disk ≡ D.seen self.old.disk }
        ensures crash { LeavesNoMore (D.may_leave self.old.disk) (D.may_leave self.new.disk) }
        ensures time { Elapses (D.moment self.old.disk) (D.moment self.new.disk) (D.left_since self.old.disk) (D.left_since self.new.disk) (D.may_leave self.new.disk) }
        ensures tells { D.tells self.new.disk ≡ D.tells self.old.disk }
        ensures cause { HasCause (D.faults self.old.disk + self.old.faults) (D.faults self.new.disk + self.new.faults) result }
        ensures passes { PassesOn D.faults self.old.left self.new.left self.old.disk self.new.disk result }
    {
        if is_blown(&mut self.left, &mut self.faults) {
            return Err(Failed);
        }
        self.disk.read(slot, at, into)
    }

    fn write(&mut self, slot: Slot, at: u64, bytes: &[u8]) -> Result<(), Failed>
        requires { IsTrue (D.tells self.old.disk) → at ≤ length (in_slot slot (D.seen self.old.disk)) }
        ensures written { IsTrue (D.tells self.old.disk) → OnOk result (in_slot slot (D.seen self.new.disk)
            ≡ take at (in_slot slot (D.seen self.old.disk)) ++ bytes.now ++ drop (at + length bytes.now) (in_slot slot (D.seen self.old.disk))) }
        ensures torn { IsTrue (D.tells self.old.disk) → InSlot slot (Torn at (length bytes.now)) (D.seen self.old.disk) (D.seen self.new.disk) }
        ensures crash { Follows (InSlot slot (Torn at (length bytes.now))) (D.may_leave self.old.disk) (D.may_leave self.new.disk) }
        ensures time { Elapses (D.moment self.old.disk) (D.moment self.new.disk) (D.left_since self.old.disk) (D.left_since self.new.disk) (D.may_leave self.new.disk) }
        ensures tells { D.tells self.new.disk ≡ D.tells self.old.disk }
        ensures cause { HasCause (D.faults self.old.disk + self.old.faults) (D.faults self.new.disk + self.new.faults) result }
        ensures passes { PassesOn D.faults self.old.left self.new.left self.old.disk self.new.disk result }
    {
        if is_blown(&mut self.left, &mut self.faults) {
            return Err(Failed);
        }
        self.disk.write(slot, at, bytes)
    }

    fn sync(&mut self, slot: Slot) -> Result<(), Failed>
        ensures durable { IsTrue (D.tells self.old.disk) → OnOk result (LeavesAll (D.may_leave self.new.disk)
            (λ image. in_slot slot image ≡ (in_slot slot (D.seen self.old.disk)))) }
        ensures seen { D.seen self.new.disk ≡ D.seen self.old.disk }
        ensures crash { LeavesNoMore (D.may_leave self.old.disk) (D.may_leave self.new.disk) }
        ensures time { Elapses (D.moment self.old.disk) (D.moment self.new.disk) (D.left_since self.old.disk) (D.left_since self.new.disk) (D.may_leave self.new.disk) }
        ensures tells { D.tells self.new.disk ≡ D.tells self.old.disk }
        ensures cause { HasCause (D.faults self.old.disk + self.old.faults) (D.faults self.new.disk + self.new.faults) result }
        ensures passes { PassesOn D.faults self.old.left self.new.left self.old.disk self.new.disk result }
    {
        if is_blown(&mut self.left, &mut self.faults) {
            return Err(Failed);
        }
        self.disk.sync(slot)
    }
}

/// Takes one from the calls that are left, or counts a fault and says so.
fn is_blown(left: &mut u64, faults: &mut u64) -> bool
    ensures blown { IsTrue result ↔ (left.old ≡ 0) }
    ensures left { left.new ≡ left.old - 1 }
    ensures later { faults.old ≤ faults.new }
    ensures rose { OnTrue result (Rose faults.old faults.new) }
{
    let count = *faults;
    if *left == 0 {
        *faults = count.saturating_add(1);
        return true;
    }
    *left -= 1;
    false
}
