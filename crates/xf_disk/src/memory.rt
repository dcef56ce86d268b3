//! A disk in memory that may stop at any moment, with a list of the calls that were made.
ghost use Rattle.std.specs.Prelude.{◌≡◌, ◌≤◌, ◌+◌, ◌-◌, ◌∷◌, ◌++◌, [], ◌↔◌, nat_lt, if◌then◌else◌, vec_len, vec_capacity, IsSome, IfSome, IfOk};

use crate::Slot;
use crate::cells::Cells;
use crate::slots::Slots;
use std::alloc::{AllocError, Global};
use std::snapshot::Snapshot;

/// One call of a disk: the slot, the offset and the number of bytes that were asked or given.
#[derive(Clone, Copy, Debug, PartialEq, Eq)]
pub enum Call {
    Len(Slot),
    Read(Slot, u64, usize),
    Write(Slot, u64, usize),
    Sync(Slot),
}

/// A disk in memory. It takes its room when it is made, and a call that needs more fails: a write past
/// the room of a slot, or a call past the length of the list of calls.
#[derive(Drop)]
pub struct MemoryDisk {
    pub(crate) slots: Slots,
    /// The slots before each sync so far. A snapshot takes no bytes.
    pub(crate) past: Vec<Snapshot<Slots>>,
    pub(crate) calls: Vec<Call>,
    /// The calls that still have room in the list.
    pub(crate) calls_left: usize,
    pub(crate) faults: u64,
    ghost room_to_list: { vec_len calls + calls_left ≤ vec_capacity calls },
    ghost room_to_keep: { vec_len past + calls_left ≤ vec_capacity past },
}

impl MemoryDisk {
    ghost use Rattle.xf_disk.specs.Image.{in_slot};
    ghost use Rattle.xf_disk.specs.Memory.{seen_by, DiskRests, DiskMayLeave, HasRoom, after_crash_image};

    /// A disk that holds these bytes, all of them synced, with room for so many bytes in each slot and
    /// for so many calls.
    pub fn new(
        alloc: Global,
        a: &[u8],
        b: &[u8],
        room: usize,
        calls: usize,
    ) -> Result<MemoryDisk, AllocError>
        ensures rest { IfOk result (DiskRests (record { a = a.now; b = b.now })) }
        ensures room { IfOk result (HasRoom room calls) }
    {
        let slots = Slots {
            a: Cells::new(alloc, a, room)?,
            b: Cells::new(alloc, b, room)?,
        };
        MemoryDisk::over(alloc, slots, calls)
    }

    fn over(alloc: Global, slots: Slots, calls: usize) -> Result<MemoryDisk, AllocError>
        ensures slots { IfOk result (λ disk. disk.slots ≡ slots) }
        ensures calls { IfOk result (λ disk. disk.calls_left ≡ calls) }
        ensures none_made { IfOk result (λ disk. disk.calls.items ≡ []) }
    {
        Ok(MemoryDisk {
            slots,
            past: Vec::with_capacity(alloc, calls)?,
            calls: Vec::with_capacity(alloc, calls)?,
            calls_left: calls,
            faults: 0,
        })
    }

    /// The calls that were made, in order, those that failed among them.
    pub fn calls(&self) -> &[Call]
        ensures { result.now ≡ self.now.calls.items }
    {
        &self.calls
    }

    /// What a read gives.
    pub fn held(&self, slot: Slot) -> &[u8]
        ensures { result.now ≡ in_slot slot (seen_by self.now) }
    {
        self.slots.held(slot)
    }

    /// The disk after a crash: each byte that was written since the last sync of its slot takes the
    /// filling, or stays as written where there is none, and each slot grew by so many bytes at most
    /// since that sync. Its room is that of this disk, and it lists as many calls.
    pub fn after_crash(
        &self,
        alloc: Global,
        fill: Option<u8>,
        grown: u64,
    ) -> Result<MemoryDisk, AllocError>
        ensures rest { IfOk result (DiskRests (after_crash_image fill grown self.now.slots)) }
        ensures left { IfOk result (λ disk. DiskMayLeave self.now (seen_by disk)) }
    {
        let slots = Slots {
            a: self.slots.a.after_crash(alloc, fill, grown as usize)?,
            b: self.slots.b.after_crash(alloc, fill, grown as usize)?,
        };
        MemoryDisk::over(alloc, slots, self.calls.capacity())
    }

    /// The disk after a crash that left these bytes, or `None` where no crash may leave them.
    pub fn left_with(
        &self,
        alloc: Global,
        a: &[u8],
        b: &[u8],
    ) -> Result<Option<MemoryDisk>, AllocError>
        ensures some { IfOk result (λ left. IsSome left ↔ DiskMayLeave self.now (record { a = a.now; b = b.now })) }
        ensures rest { IfOk result (λ left. IfSome left (DiskRests (record { a = a.now; b = b.now }))) }
    {
        if !self.slots.a.may_hold(a) || !self.slots.b.may_hold(b) {
            return Ok(None);
        }
        let room = self.slots.a.bytes.len().max(self.slots.b.bytes.len());
        Ok(Some(MemoryDisk::new(alloc, a, b, room, self.calls.capacity())?))
    }
}

/// Lists a call, and says whether there was room for it.
pub(crate) fn listed(calls: &mut Vec<Call>, left: &mut usize, call: Call) -> bool
    requires { vec_len calls.old + left.old ≤ vec_capacity calls.old }
    ensures made { result ≡ nat_lt 0 left.old }
    ensures left { left.new ≡ left.old - 1 }
    ensures listed { calls.new.items ≡ (if result then calls.old.items ++ call ∷ [] else calls.old.items) }
    ensures room { vec_len calls.new + left.new ≤ vec_capacity calls.new }
{
    if *left == 0 {
        return false;
    }
    *left -= 1;
    calls.push(call).is_ok()
}
