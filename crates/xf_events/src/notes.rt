//! The notes of an event.

ghost use Rattle.std.specs.Prelude.{◌≡◌, [], IfOk, OnErr};
ghost use Rattle.xf_events.specs.Notes.{IsMeasured, IsNoted};

use std::alloc::{AllocError, AllocFailed, Global};
use std::marker::Model;
use xf_base::Items;
use xf_base::limits::NOTE_LIMIT;
use xf_def_machine::{Note, Notes};
use xf_report::push_notes;

/// Why a note is not added.
#[derive(Clone, Copy, Debug, PartialEq, Eq)]
pub enum NoteFault {
    /// The lines of all would have too many bytes.
    Limit,
    Memory,
}

impl From<AllocError> for NoteFault {
    ghost use Rattle.std.specs.Prelude.{◌≡◌};
    ghost use Rattle.xf_events.specs.declared.notes.NoteFault.TheVariants.{Memory};

    ghost from_gives = { λ _ e. e ≡ Memory };

    fn from(_: AllocError) -> Self {
        NoteFault::Memory
    }
}

impl<T: Drop> From<AllocFailed<T>> for NoteFault {
    ghost use Rattle.std.specs.Prelude.{◌≡◌};
    ghost use Rattle.xf_events.specs.declared.notes.NoteFault.TheVariants.{Memory};

    ghost from_gives = { λ _ e. e ≡ Memory };

    fn from(_: AllocFailed<T>) -> Self {
        NoteFault::Memory
    }
}

/// The notes of an event, with the bytes of their lines.
#[derive(Drop)]
pub struct NoteList {
    notes: Notes,
    size: usize,
}

impl Model for NoteList {
    ghost use Rattle.std.specs.Prelude.{◌≡◌, ◌≤◌, ◌^◌, List};
    ghost use Rattle.xf_def_machine.specs.declared.note.Note.{Note};
    ghost use Rattle.xf_def_machine.specs.NoteLines.{notes_size};

    ghost Value = { List Note };

    ghost view = { λ l. l.notes };

    ghost invariant = { λ l. (l.size ≡ notes_size l.notes) × (l.size ≤ 2 ^ 20) };
}

impl NoteList {
    pub fn new(alloc: Global) -> Self
        ensures { result ≡ [] }
    {
        NoteList {
            notes: Items::new(alloc),
            size: 0,
        }
    }

    /// The notes, in order.
    pub fn as_slice(&self) -> &[Note]
        ensures { result.now ≡ self.now }
    {
        self.notes.as_slice()
    }

    /// Adds a note, unless the lines of all would have too many bytes.
    pub fn add(&mut self, alloc: Global, note: Note) -> Result<(), NoteFault>
        ensures done { IsNoted result note self.old self.new }
        ensures err { OnErr result (self.new ≡ self.old) }
    {
        let (note, more) = measured(alloc, note)?;
        let size = self.size;
        if more > NOTE_LIMIT - size {
            return Err(NoteFault::Limit);
        }
        self.notes.push(note)?;
        self.size = size + more;
        Ok(())
    }

    /// Drops all notes. It takes no memory.
    pub fn clear(&mut self)
        ensures { self.new ≡ [] }
    {
        drop_all(&mut self.notes);
        self.size = 0;
    }
}

fn drop_all(notes: &mut Notes)
    ensures { notes.new ≡ [] }
{
    while !notes.is_empty() {
        let _ = notes.pop();
    }
}

/// A note, with the bytes of its line.
fn measured(alloc: Global, note: Note) -> Result<(Note, usize), AllocError>
    ensures { IfOk result (λ p. IsMeasured p.0 p.1 note) }
{
    let mut one = Items::new(alloc);
    one.push(note)?;
    let mut lines = String::new(alloc);
    push_notes(alloc, &mut lines, one.as_slice())?;
    match one.pop() {
        Some(note) => Ok((note, lines.len())),
        None => unreachable!(),
    }
}
