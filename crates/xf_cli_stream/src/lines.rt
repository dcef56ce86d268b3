//! The answers to lines, one after the other.

ghost use Rattle.std.specs.Prelude.{◌≡◌, ◌≤◌, true, length, string_bytes, IfOk, IfErr};
ghost use Rattle.std.specs.Io.KnownBytes.{prepend_known, IsAtEnd};
ghost use Rattle.xf_base.specs.Faults.{Rose};
ghost use Rattle.xf_io.specs.Lines.{CountsBytes};
ghost use Rattle.xf_io.specs.Ahead.{most_ahead};
ghost use Rattle.xf_cli_stream.specs.Answers.{too_long_reply};
ghost use Rattle.xf_cli_stream.specs.Out.{IsAllOut, IsSteady};
ghost use Rattle.xf_cli_stream.specs.Answering.{NextKnown, Answered, IfReply, IsReplyOrEnd, Moves};

use crate::answering::{AnswerFault, Answering};
use crate::output::write_reply;
use std::alloc::Global;
use xf_io::{Line, Lines, Sink, Source};
use xf_store::Store;

/// How the answers to the lines end.
#[derive(Clone, Copy, Debug, PartialEq, Eq)]
pub enum Ending {
    /// All lines are answered.
    Done,
    /// The events could not be read on.
    ReadFault,
    /// A reply could not be written.
    SinkFault,
    /// The events have more than 67,108,864 bytes.
    TooMuch,
    /// The disk failed.
    DiskFault,
    Memory,
}

/// The reply to the next line, or how the lines end.
#[derive(Drop)]
enum Next {
    Reply(String),
    Ends(Ending),
}

/// Answers the lines of the events, one after the other, each reply written before the next line is read.
pub fn answer_lines<D, A: Answering<D>, S: Store, E: Source, O: Sink>(
    alloc: Global,
    session: &mut A,
    disk: &mut D,
    store: &mut S,
    events: &mut E,
    out: &mut O,
) -> Ending
    requires { A.stands session.old disk.old }
    ensures answered { Answered A.answers A.leaves result (session.old, ((S.calls store.old, S.to_come store.old), disk.old)) (session.new, ((S.calls store.new, S.to_come store.new), disk.new)) (E.left events.old) (E.left events.new) (O.taken out.old) (O.taken out.new) }
    ensures read { result ≡ Ending.ReadFault → Rose (E.faults events.old) (E.faults events.new) }
    ensures written { result ≡ Ending.SinkFault → Rose (O.faults out.old) (O.faults out.new) }
    ensures kept { result ≡ Ending.DiskFault → Rose (A.disk_faults disk.old) (A.disk_faults disk.new) }
    ensures disk_later { A.disk_faults disk.old ≤ A.disk_faults disk.new }
    ensures flushed { IsAllOut result (O.taken out.old, O.flushed out.old) (O.taken out.new, O.flushed out.new) }
    ensures steady { IsSteady result (O.faults out.old) (O.faults out.new) }
    ensures later { O.faults out.old ≤ O.faults out.new }
{
    let mut lines = Lines::new();
    loop {
        match next_reply(alloc, session, disk, store, &mut lines, events) {
            Next::Reply(reply) => match write_reply(out, reply.as_bytes()) {
                Ok(()) => continue,
                Err(_) => return Ending::SinkFault,
            },
            Next::Ends(ending) => return ending,
        }
    }
}

// Reads the next line and does what it asks for.
#[tactic(auto, using(crate::proofs::Said::takes_short, crate::proofs::Said::takes_long, crate::proofs::Said::reply_stands))]
fn next_reply<D, A: Answering<D>, S: Store, E: Source>(
    alloc: Global,
    session: &mut A,
    disk: &mut D,
    store: &mut S,
    lines: &mut Lines,
    events: &mut E,
) -> Next
    requires stands { A.stands session.old disk.old }
    requires one_source { lines.old.ended ≡ true → IsAtEnd (E.left events.old) }
    ensures next { NextKnown A.answers A.leaves (session.old, ((S.calls store.old, S.to_come store.old), disk.old)) (session.new, ((S.calls store.new, S.to_come store.new), disk.new)) (prepend_known lines.old.bytes (E.left events.old)) (prepend_known lines.new.bytes (E.left events.new)) lines.new result }
    ensures stands { IfReply result (A.stands session.new disk.new) }
    ensures ahead { length lines.new.bytes ≤ most_ahead }
    ensures counts { CountsBytes (prepend_known lines.old.bytes (E.left events.old)) (prepend_known lines.new.bytes (E.left events.new)) lines.old.given lines.new.given }
    ensures moves { Moves result lines.old.given lines.new.given }
    ensures done { lines.old.ended ≡ true → result ≡ Next.Ends Ending.Done }
    ensures one_source { lines.new.ended ≡ true → IsAtEnd (E.left events.new) }
    ensures later { E.faults events.old ≤ E.faults events.new }
    ensures fault { result ≡ Next.Ends Ending.ReadFault → Rose (E.faults events.old) (E.faults events.new) }
    ensures disk_later { A.disk_faults disk.old ≤ A.disk_faults disk.new }
    ensures kept { result ≡ Next.Ends Ending.DiskFault → Rose (A.disk_faults disk.old) (A.disk_faults disk.new) }
    ensures no_sink { result ≡ Next.Ends Ending.SinkFault → ⊥ }
{
    match lines.next(alloc, events) {
        Line::Text(line) => reply_or_end(session.answer(alloc, line.as_slice(), disk, store)),
        Line::TooLong => reply_or_end(too_long(alloc)),
        Line::End => Next::Ends(Ending::Done),
        Line::ReadFault => Next::Ends(Ending::ReadFault),
        Line::TooMuch => Next::Ends(Ending::TooMuch),
        Line::Memory => Next::Ends(Ending::Memory),
    }
}

// The reply to a line that is too long.
fn too_long(alloc: Global) -> Result<String, AnswerFault>
    ensures reply { IfOk result (λ text. string_bytes text ≡ too_long_reply) }
    ensures fault { IfErr result (λ fault. fault ≡ AnswerFault.Memory) }
{
    Ok(String::from_str(alloc, "no E1 LineTooLong\n")?)
}

// A reply, or how the lines end without one.
fn reply_or_end(reply: Result<String, AnswerFault>) -> Next
    ensures { IsReplyOrEnd reply result }
{
    match reply {
        Ok(reply) => Next::Reply(reply),
        Err(AnswerFault::Disk) => Next::Ends(Ending::DiskFault),
        Err(AnswerFault::Memory) => Next::Ends(Ending::Memory),
    }
}
