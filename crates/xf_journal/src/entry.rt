//! Entries: the line of an event with the answers of the store.
ghost use Rattle.std.specs.Prelude.{◌≡◌, ◌≤◌, ◌++◌, length, OnOk, IfOk, IsTrue};
ghost use Rattle.xf_journal.specs.Entry.{written_bytes, is_within, entry_in, body_in, body_bytes};

use crate::answers::{answers_in, put_answers};
use crate::number::{four, from_four};
use std::alloc::{AllocError, Global};
use std::marker::Model;
use xf_base::Items;
use xf_base::limits::LINE_LIMIT;
use xf_io::Bytes;
use xf_store::{Answer, Answers};

/// An event that was accepted: its line without the line feed, and what the store answered.
#[derive(Debug, Drop)]
pub struct Accepted {
    pub line: Bytes,
    pub answers: Answers,
}

/// The entries of a journal, in order.
pub type EntryList = Items<Accepted>;

/// An entry that is to be appended, as the bytes that are written: its length, the entry and a closed gate. Contracts
/// see the line and the answers.
#[derive(Debug, Drop)]
pub struct Entry {
    written: Bytes,
}

impl Model for Entry {
    ghost use Rattle.xf_journal.specs.declared.entry.Accepted.{Accepted};
    ghost use Rattle.xf_journal.specs.Entry.{spelled, IsEntry};

    ghost Value = { Accepted };

    ghost view = { λ e. spelled e.written };

    ghost invariant = { λ e. IsEntry e.written };
}

impl Entry {
    /// The number of bytes that are written.
    pub fn len(&self) -> usize
        ensures { result ≡ length (written_bytes self.now.line self.now.answers) }
    {
        self.written.len()
    }

    /// The bytes that are written.
    pub(crate) fn bytes(&self) -> &[u8]
        ensures bytes { result.now ≡ written_bytes self.now.line self.now.answers }
        ensures within { IsTrue (is_within self.now.line self.now.answers) }
    {
        self.written.as_slice()
    }
}

/// Takes the memory for an entry with this line and these answers.
pub fn make_entry(alloc: Global, line: &[u8], answers: &Answers) -> Result<Entry, AllocError>
    requires { IsTrue (is_within line.now answers.now) }
    ensures { IfOk result (λ entry. entry ≡ record { line = line.now; answers = answers.now }) }
{
    let mut body = Vec::with_capacity(alloc, room_of(line, answers))?;
    put_body(&mut body, line, answers)?;
    let mut written = Vec::with_capacity(alloc, body.len().saturating_add(5))?;
    written.extend_from_slice(&four(body.len() as u32))?;
    written.extend_from_slice(&body)?;
    written.push(0)?;
    Ok(Entry {
        written: Bytes::from_vec(written),
    })
}

/// The room for the line with its length before it, the number of the answers, and the answers.
fn room_of(line: &[u8], answers: &Answers) -> usize {
    let mut room = line.len().saturating_add(5);
    for answer in answers.as_slice() {
        room = room.saturating_add(match answer {
            Answer::Found(found) => found.len().saturating_add(5),
            _ => 1,
        });
    }
    room
}

/// Adds the line with its length before it, and the answers.
fn put_body(bytes: &mut Vec<u8>, line: &[u8], answers: &Answers) -> Result<(), AllocError>
    requires { IsTrue (is_within line.now answers.now) }
    ensures { OnOk result (bytes.new.items ≡ bytes.old.items ++ body_bytes line.now answers.now) }
{
    bytes.extend_from_slice(&four(line.len() as u32))?;
    bytes.extend_from_slice(line)?;
    put_answers(bytes, answers)
}

/// The line and the answers that these bytes are, if they are an entry's.
fn body_in(alloc: Global, body: &[u8]) -> Result<Option<Accepted>, AllocError>
    ensures { IfOk result (λ entry. entry ≡ body_in body.now) }
{
    if body.len() < 4 {
        return Ok(None);
    }
    let length = from_four(body) as usize;
    if length > LINE_LIMIT || length > body.len() - 4 {
        return Ok(None);
    }
    match answers_in(alloc, &body[4 + length..])? {
        None => Ok(None),
        Some(answers) => {
            let line = Bytes::from_vec(Vec::from_slice(alloc, &body[4..4 + length])?);
            Ok(Some(Accepted { line, answers }))
        }
    }
}

/// The entry at the front of these bytes, which stand behind a gate.
pub(crate) fn entry_in(alloc: Global, bytes: &[u8]) -> Result<Option<Accepted>, AllocError>
    ensures { IfOk result (λ entry. entry ≡ entry_in bytes.now) }
{
    if bytes.len() < 4 {
        return Ok(None);
    }
    let length = from_four(bytes) as usize;
    if length > bytes.len() - 4 {
        return Ok(None);
    }
    body_in(alloc, &bytes[4..4 + length])
}
