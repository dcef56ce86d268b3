//! The lines in which notes are told.
ghost use Rattle.std.specs.Prelude.{◌≡◌, ◌++◌, OnOk, string_bytes};
ghost use Rattle.xf_def_machine.specs.NoteLines.{note_line, note_text};
ghost use Rattle.xf_def_machine.specs.Replies.{note_lines};

use crate::text::{push_number, push_quoted};
use std::alloc::{AllocError, Global};
use xf_def_machine::Note;

/// Appends a line for each note.
pub fn push_notes(alloc: Global, text: &mut String, notes: &[Note]) -> Result<(), AllocError>
    ensures { OnOk result (string_bytes text.new ≡ string_bytes text.old ++ note_lines notes.now) }
{
    for note in notes {
        push_note_line(alloc, text, note)?;
    }
    Ok(())
}

fn push_note_line(alloc: Global, text: &mut String, note: &Note) -> Result<(), AllocError>
    ensures { OnOk result (string_bytes text.new ≡ string_bytes text.old ++ note_line note.now) }
{
    text.push_str("note ")?;
    push_note(alloc, text, note)?;
    text.push_str("\n")
}

fn push_note(alloc: Global, text: &mut String, note: &Note) -> Result<(), AllocError>
    ensures { OnOk result (string_bytes text.new ≡ string_bytes text.old ++ note_text note.now) }
{
    match note {
        Note::Message(words) => {
            text.push_str("message ")?;
            push_quoted(alloc, text, words.as_str())
        }
        Note::Load(resource) => {
            text.push_str("load ")?;
            push_quoted(alloc, text, resource.as_str())
        }
        Note::Focus(id) => {
            text.push_str("focus ")?;
            push_quoted(alloc, text, id.as_str())
        }
        Note::All(name, size) => {
            text.push_str("all ")?;
            push_quoted(alloc, text, name.as_str())?;
            text.push_str(" ")?;
            push_number(text, *size as u64)
        }
    }
}
