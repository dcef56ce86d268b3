//! Two slots in memory.
ghost use Rattle.std.specs.Prelude.{◌≤◌, ◌<◌, ◌≡◌, ◌+◌, ◌↔◌, IsTrue, length};

use crate::Slot;
use crate::cells::Cells;

/// The bytes of the two slots.
#[derive(Drop)]
pub struct Slots {
    pub(crate) a: Cells,
    pub(crate) b: Cells,
}

impl Slots {
    ghost use Rattle.xf_disk.specs.Cells.{held_by, IsWritten, IsSynced};
    ghost use Rattle.xf_disk.specs.Memory.{cells_in, CellsStep};

    /// The bytes that stand in a slot.
    pub(crate) fn held(&self, slot: Slot) -> &[u8]
        ensures { result.now ≡ held_by (cells_in slot self.now) }
    {
        match slot {
            Slot::A => self.a.held(),
            Slot::B => self.b.held(),
        }
    }

    /// Whether so many bytes from this offset on have room in a slot.
    pub(crate) fn has_room(&self, slot: Slot, at: usize, count: usize) -> bool
        requires { at ≤ (cells_in slot self.now).len }
        ensures { IsTrue result ↔ (at + count ≤ length (cells_in slot self.now).bytes.items) }
    {
        let room = match slot {
            Slot::A => self.a.bytes.len(),
            Slot::B => self.b.bytes.len(),
        };
        count <= room - at
    }

    /// Writes over what stands in a slot, and past its end.
    pub(crate) fn write(&mut self, slot: Slot, at: usize, bytes: &[u8])
        requires start { at ≤ (cells_in slot self.old).len }
        requires room { at + length bytes.now ≤ length (cells_in slot self.old).bytes.items }
        ensures { CellsStep slot (IsWritten at bytes.now) self.old self.new }
    {
        match slot {
            Slot::A => self.a.write(at, bytes),
            Slot::B => self.b.write(at, bytes),
        }
    }

    /// From now on a crash leaves what stands in a slot.
    pub(crate) fn sync(&mut self, slot: Slot)
        ensures { CellsStep slot IsSynced self.old self.new }
    {
        match slot {
            Slot::A => self.a.sync(),
            Slot::B => self.b.sync(),
        }
    }
}
