//! The bytes of one slot in memory, with the marks of those that a crash may still change.
ghost use Rattle.std.specs.Prelude.{◌≤◌, ◌≡◌, ◌+◌, ◌↔◌, vec_len, length, IsTrue, IfOk};
ghost use Rattle.xf_disk.specs.Marks.{Stays, Agrees, filled, filling_of};

use std::alloc::{AllocError, Global};

/// The bytes of one slot, in the room that was taken when it was made.
#[derive(Drop)]
pub struct Cells {
    /// What stands, and then the room that is left.
    pub(crate) bytes: Vec<u8>,
    /// Which of them were written since the last sync.
    pub(crate) written: Vec<bool>,
    /// How many stand.
    pub(crate) len: usize,
    /// How many stood at the last sync.
    pub(crate) synced: usize,
    ghost alike: { vec_len written ≡ vec_len bytes },
    ghost within: { len ≤ vec_len bytes },
    ghost grown: { synced ≤ len },
}

impl Cells {
    ghost use Rattle.xf_disk.specs.Cells.{held_by, after_crash_of, CellsMayHold, IsWritten, IsSynced, Rests};

    /// These bytes, all of them synced, with room for so many bytes in all.
    pub(crate) fn new(alloc: Global, held: &[u8], room: usize) -> Result<Cells, AllocError>
        ensures rest { IfOk result (Rests held.now) }
        ensures room { IfOk result (λ cells. room ≤ vec_len cells.bytes) }
    {
        let len = held.len();
        let mut bytes = Vec::from_slice(alloc, held)?;
        bytes.resize(room.max(len), 0)?;
        let written = vec![in alloc; false; room.max(len)]?;
        Ok(Cells {
            bytes,
            written,
            len,
            synced: len,
        })
    }

    /// The bytes that stand.
    pub(crate) fn held(&self) -> &[u8]
        ensures { result.now ≡ held_by self.now }
    {
        &self.bytes[..self.len]
    }

    /// Writes over what stands, and past the end.
    pub(crate) fn write(&mut self, at: usize, bytes: &[u8])
        requires start { at ≤ self.old.len }
        requires room { at + length bytes.now ≤ vec_len self.old.bytes }
        ensures { IsWritten at bytes.now self.old self.new }
    {
        let end = at + bytes.len();
        self.bytes[at..end].copy_from_slice(bytes);
        self.written[at..end].fill(true);
        self.len = self.len.max(end);
    }

    /// From now on a crash leaves what stands.
    pub(crate) fn sync(&mut self)
        ensures { IsSynced self.old self.new }
    {
        self.written.fill(false);
        self.synced = self.len;
    }

    /// What stands after a crash: each byte that was written since the last sync takes the filling, if
    /// there is one, and the slot grew by so many bytes at most.
    pub(crate) fn after_crash(
        &self,
        alloc: Global,
        fill: Option<u8>,
        grown: usize,
    ) -> Result<Cells, AllocError>
        ensures { IfOk result (Rests (after_crash_of fill grown self.now)) }
    {
        let len = self.synced.saturating_add(grown).min(self.len);
        let bytes = filled_with(alloc, fill, &self.written, &self.bytes)?;
        Cells::new(alloc, &bytes[..len], bytes.len())
    }

    /// Whether a crash may leave these bytes.
    pub(crate) fn may_hold(&self, image: &[u8]) -> bool
        ensures { IsTrue result ↔ CellsMayHold self.now image.now }
    {
        self.synced <= image.len()
            && image.len() <= self.len
            && agrees(&self.written, &self.bytes, image)
    }
}

/// A byte that was written takes the filling, if there is one.
fn filling(fill: Option<u8>, is_written: bool, byte: u8) -> u8
    ensures { result ≡ filling_of fill is_written byte }
{
    if is_written {
        fill.unwrap_or(byte)
    } else {
        byte
    }
}

/// Each byte that was written takes the filling, if there is one.
fn filled_with(
    alloc: Global,
    fill: Option<u8>,
    written: &[bool],
    bytes: &[u8],
) -> Result<Vec<u8>, AllocError>
    requires { length written.now ≡ length bytes.now }
    ensures filled { IfOk result (λ left. left.items ≡ filled fill written.now bytes.now) }
    ensures len { IfOk result (λ left. vec_len left ≡ length bytes.now) }
{
    let mut left = Vec::with_capacity(alloc, bytes.len())?;
    for (i, byte) in bytes.iter().enumerate() {
        left.push(filling(fill, written[i], *byte))?;
    }
    Ok(left)
}

/// Whether each byte that was not written is as it was.
fn agrees(written: &[bool], bytes: &[u8], image: &[u8]) -> bool
    requires alike { length written.now ≡ length bytes.now }
    requires within { length image.now ≤ length bytes.now }
    ensures { IsTrue result ↔ Agrees written.now bytes.now image.now }
{
    for (i, left) in image.iter().enumerate() {
        if !stays(written[i], bytes[i], *left) {
            return false;
        }
    }
    true
}

/// Whether a byte is as it was, if it was not written.
fn stays(is_written: bool, byte: u8, left: u8) -> bool
    ensures { IsTrue result ↔ Stays is_written byte left }
{
    is_written || left == byte
}
