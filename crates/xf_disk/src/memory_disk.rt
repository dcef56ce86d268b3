//! The disk in memory as a disk.
ghost use Rattle.std.specs.Prelude.{◌≡◌, ◌≤◌, ◌+◌, ◌-◌, ◌++◌, true, min, length, take, drop, IfOk, OnOk};
ghost use Rattle.std.proofs.Common.{inl};
ghost use Rattle.xf_base.specs.Faults.{Rose, HasCause};
ghost use Rattle.xf_disk.specs.Image.{in_slot};
ghost use Rattle.xf_disk.specs.Crash.{Torn, InSlot, Follows, LeavesNoMore, LeavesAll, Elapses};
ghost use Rattle.xf_disk.specs.Memory.{image_of, MayLeave, LeftSince, Makes, fits};
ghost use Rattle.xf_disk.specs.Laws.{only_present, seen_may_be_left};

use crate::memory::{Call, MemoryDisk, listed};
use crate::{Disk, Slot};
use std::snapshot::Snapshot;
use xf_io::Failed;

impl Disk for MemoryDisk {
    ghost tells = { λ _. true };

    ghost seen = { λ m. image_of m.slots };

    ghost may_leave = { λ m. MayLeave m.slots };

    ghost moment = { λ m. length m.past.items };

    ghost left_since = { λ m. LeftSince m.slots m.past.items };

    ghost faults = { λ m. m.faults };

    ghost counts_now = { λ m t image le now. inl now };

    ghost only_now = { λ m image left. only_present m.slots m.past.items image left };

    ghost seen_may_stand = { λ m told. seen_may_be_left m.slots };

    fn len(&mut self, slot: Slot) -> Result<u64, Failed>
        ensures length { IfOk result (λ bytes. bytes ≡ length (in_slot slot (image_of self.old.slots))) }
        ensures seen { image_of self.new.slots ≡ image_of self.old.slots }
        ensures crash { LeavesNoMore (MayLeave self.old.slots) (MayLeave self.new.slots) }
        ensures time { Elapses (length self.old.past.items) (length self.new.past.items) (LeftSince self.old.slots self.old.past.items) (LeftSince self.new.slots self.new.past.items) (MayLeave self.new.slots) }
        ensures cause { HasCause self.old.faults self.new.faults result }
        ensures made { Makes (Call.Len slot) (true) self.old self.new result }
    {
        if !listed(&mut self.calls, &mut self.calls_left, Call::Len(slot)) {
            return Err(fault(&mut self.faults));
        }
        Ok(self.slots.held(slot).len() as u64)
    }

    fn read(&mut self, slot: Slot, at: u64, into: &mut [u8]) -> Result<usize, Failed>
        ensures within { IfOk result (λ count. count ≤ length into.old) }
        ensures bytes { IfOk result (λ count. (count ≡ min (length into.old) (length (in_slot slot (image_of self.old.slots)) - at))
            × (into.new ≡ take count (drop at (in_slot slot (image_of self.old.slots))) ++ drop count into.old)) }
        ensures seen { image_of self.new.slots ≡ image_of self.old.slots }
        ensures crash { LeavesNoMore (MayLeave self.old.slots) (MayLeave self.new.slots) }
        ensures time { Elapses (length self.old.past.items) (length self.new.past.items) (LeftSince self.old.slots self.old.past.items) (LeftSince self.new.slots self.new.past.items) (MayLeave self.new.slots) }
        ensures cause { HasCause self.old.faults self.new.faults result }
        ensures made { Makes (Call.Read slot at (length into.old)) (true) self.old self.new result }
    {
        let call = Call::Read(slot, at, into.len());
        if !listed(&mut self.calls, &mut self.calls_left, call) {
            return Err(fault(&mut self.faults));
        }
        Ok(copied(self.slots.held(slot), at, into))
    }

    fn write(&mut self, slot: Slot, at: u64, bytes: &[u8]) -> Result<(), Failed>
        requires { at ≤ length (in_slot slot (image_of self.old.slots)) }
        ensures written { OnOk result (in_slot slot (image_of self.new.slots)
            ≡ take at (in_slot slot (image_of self.old.slots)) ++ bytes.now ++ drop (at + length bytes.now) (in_slot slot (image_of self.old.slots))) }
        ensures torn { InSlot slot (Torn at (length bytes.now)) (image_of self.old.slots) (image_of self.new.slots) }
        ensures crash { Follows (InSlot slot (Torn at (length bytes.now))) (MayLeave self.old.slots) (MayLeave self.new.slots) }
        ensures time { Elapses (length self.old.past.items) (length self.new.past.items) (LeftSince self.old.slots self.old.past.items) (LeftSince self.new.slots self.new.past.items) (MayLeave self.new.slots) }
        ensures cause { HasCause self.old.faults self.new.faults result }
        ensures made { Makes (Call.Write slot at (length bytes.now)) (fits slot at (length bytes.now) self.old) self.old self.new result }
    {
        let call = Call::Write(slot, at, bytes.len());
        if !listed(&mut self.calls, &mut self.calls_left, call)
            || !self.slots.has_room(slot, at as usize, bytes.len())
        {
            return Err(fault(&mut self.faults));
        }
        self.slots.write(slot, at as usize, bytes);
        Ok(())
    }

    fn sync(&mut self, slot: Slot) -> Result<(), Failed>
        ensures durable { OnOk result (LeavesAll (MayLeave self.new.slots)
            (λ image. in_slot slot image ≡ in_slot slot (image_of self.old.slots))) }
        ensures seen { image_of self.new.slots ≡ image_of self.old.slots }
        ensures crash { LeavesNoMore (MayLeave self.old.slots) (MayLeave self.new.slots) }
        ensures time { Elapses (length self.old.past.items) (length self.new.past.items) (LeftSince self.old.slots self.old.past.items) (LeftSince self.new.slots self.new.past.items) (MayLeave self.new.slots) }
        ensures cause { HasCause self.old.faults self.new.faults result }
        ensures made { Makes (Call.Sync slot) (true) self.old self.new result }
    {
        if !listed(&mut self.calls, &mut self.calls_left, Call::Sync(slot)) {
            return Err(fault(&mut self.faults));
        }
        if self.past.push(Snapshot::of(&self.slots)).is_err() {
            return Err(fault(&mut self.faults));
        }
        self.slots.sync(slot);
        Ok(())
    }
}

/// Counts a fault.
fn fault(faults: &mut u64) -> Failed
    ensures later { faults.old ≤ faults.new }
    ensures rose { Rose faults.old faults.new }
{
    let _count = *faults;
    *faults = faults.saturating_add(1);
    Failed
}

/// Copies the bytes from an offset on, as many as fit.
fn copied(held: &[u8], at: u64, into: &mut [u8]) -> usize
    ensures count { result ≡ min (length into.old) (length held.now - at) }
    ensures bytes { into.new ≡ take result (drop at held.now) ++ drop result into.old }
{
    let from = (at as usize).min(held.len());
    let count = into.len().min(held.len() - from);
    into[..count].copy_from_slice(&held[from..from + count]);
    count
}
