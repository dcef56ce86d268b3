//! The reader of lines.

ghost use Rattle.std.specs.Prelude.{◌≡◌, ◌≤◌, ◌<◌, ◌+◌, ◌-◌, [], List, ℕ, length, take, drop, OnOk, OnErr, Ok, true, false, Some};
ghost use Rattle.std.specs.Io.KnownBytes.{prepend_known, Keeps, IsAtEnd};
ghost use Rattle.xf_base.specs.Faults.{HasCause, Rose};
ghost use Rattle.xf_base.specs.Limits.{stream_limit};
ghost use Rattle.xf_io.specs.Ahead.{most_ahead};
ghost use Rattle.xf_io.specs.Lines.{GivesLine, IsOpen, CountsBytes, Moves};
ghost use Rattle.xf_io.specs.Part.{StepTakes, IsFeedAt};

use crate::part::Part;
use crate::{Bytes, Failed, Source};
use std::alloc::Global;
use std::marker::Model;
use xf_base::limits::STREAM_LIMIT;

const ROOM: usize = 4096;

/// The next line of a stream, or why there is none.
#[derive(Drop)]
pub enum Line {
    /// The line, without its line feed.
    Text(Bytes),
    /// A line of more than 65,536 bytes, which is passed over.
    TooLong,
    /// All lines were given.
    End,
    ReadFault,
    /// The stream has more than 2^26 bytes.
    TooMuch,
    Memory,
}

/// Cuts the bytes of a source into lines. It reads ahead, and never again once the source told its end.
#[derive(Drop)]
pub struct Lines {
    buffer: [u8; ROOM],
    start: usize,
    end: usize,
    given: usize,
    ended: bool,
}

impl Model for Lines {
    ghost use Rattle.std.specs.Prelude.{◌≡◌, ◌≤◌, ◌-◌, take, drop, true};
    ghost use Rattle.xf_base.specs.Limits.{stream_limit};
    ghost use Rattle.xf_io.specs.Ahead.{Ahead};

    ghost Value = { Ahead };

    ghost view = { λ l. record { bytes = take (l.end - l.start) (drop l.start l.buffer); given = l.given; ended = l.ended } };

    ghost invariant = { λ l. (l.start ≤ l.end) × (l.end ≤ 4096) × (l.given ≤ stream_limit) × (l.ended ≡ true → l.start ≡ l.end) };
}

/// What one step of the reader comes to.
#[derive(Clone, Copy)]
enum Step {
    More,
    Ended,
    End,
    Fault,
    TooMuch,
    Memory,
}

impl Lines {
    /// A reader at the beginning of a stream.
    pub fn new() -> Self
        ensures bytes { result.bytes ≡ [] }
        ensures given { result.given ≡ 0 }
        ensures ended { result.ended ≡ false }
    {
        Lines {
            buffer: [0; ROOM],
            start: 0,
            end: 0,
            given: 0,
            ended: false,
        }
    }

    /// The next line, and why there is none. One reader is used with one source. After an answer that is neither `Text` nor `TooLong` the reader is
    /// done with: a part of a line that a fault or want of memory cut off is lost.
    pub fn next<S: Source>(&mut self, alloc: Global, source: &mut S) -> Line
        requires one_source { self.old.ended ≡ true → IsAtEnd (S.left source.old) }
        ensures line { GivesLine (prepend_known self.old.bytes (S.left source.old)) (prepend_known self.new.bytes (S.left source.new)) self.new result }
        ensures counts { CountsBytes (prepend_known self.old.bytes (S.left source.old)) (prepend_known self.new.bytes (S.left source.new)) self.old.given self.new.given }
        ensures moves { Moves result self.old.given self.new.given }
        ensures done { self.old.ended ≡ true → result ≡ Line.End }
        ensures one_source { self.new.ended ≡ true → IsAtEnd (S.left source.new) }
        ensures much { result ≡ Line.TooMuch → self.new.given ≡ stream_limit }
        ensures ahead { length self.new.bytes ≤ most_ahead }
        ensures later { S.faults source.old ≤ S.faults source.new }
        ensures fault { result ≡ Line.ReadFault → Rose (S.faults source.old) (S.faults source.new) }
    {
        let _ = &self.given;
        let mut part = Part::new(alloc);
        loop {
            match self.step(source, &mut part) {
                Step::More => continue,
                Step::Ended => return part.ended(),
                Step::End => return part.last(),
                Step::Fault => return Line::ReadFault,
                Step::TooMuch => return Line::TooMuch,
                Step::Memory => return Line::Memory,
            }
        }
    }

    // Takes what is ahead, up to a line feed, into the part.
    fn step<S: Source>(&mut self, source: &mut S, part: &mut Part) -> Step
        requires one_source { self.old.ended ≡ true → IsAtEnd (S.left source.old) }
        ensures takes { StepTakes (prepend_known self.old.bytes (S.left source.old)) (prepend_known self.new.bytes (S.left source.new)) self.old.given self.new part.old part.new result }
        ensures within { self.new.given ≤ stream_limit }
        ensures ahead { length self.new.bytes ≤ most_ahead }
        ensures done { self.old.ended ≡ true → result ≡ Step.End }
        ensures one_source { self.new.ended ≡ true → IsAtEnd (S.left source.new) }
        ensures later { S.faults source.old ≤ S.faults source.new }
        ensures fault { result ≡ Step.Fault → Rose (S.faults source.old) (S.faults source.new) }
    {
        match self.fill(source) {
            Ok(true) => self.cut(part),
            Ok(false) => Step::End,
            Err(_) => Step::Fault,
        }
    }

    // Reads where nothing is ahead. `false` is the end.
    fn fill<S: Source>(&mut self, source: &mut S) -> Result<bool, Failed>
        requires one_source { self.old.ended ≡ true → IsAtEnd (S.left source.old) }
        ensures keeps { Keeps (prepend_known self.old.bytes (S.left source.old)) (prepend_known self.new.bytes (S.left source.new)) }
        ensures some { result ≡ Ok true → 0 < length self.new.bytes }
        ensures end { result ≡ Ok false → IsAtEnd (prepend_known self.new.bytes (S.left source.new)) }
        ensures ended { result ≡ Ok false → self.new.ended ≡ true }
        ensures done { self.old.ended ≡ true → result ≡ Ok false }
        ensures one_source { self.new.ended ≡ true → IsAtEnd (S.left source.new) }
        ensures err { OnErr result (self.new.bytes ≡ []) }
        ensures given { self.new.given ≡ self.old.given }
        ensures within { self.new.given ≤ stream_limit }
        ensures ahead { length self.new.bytes ≤ most_ahead }
        ensures cause { HasCause (S.faults source.old) (S.faults source.new) result }
    {
        if self.start < self.end {
            return Ok(true);
        }
        if self.ended {
            return Ok(false);
        }
        let count = source.read(&mut self.buffer)?;
        self.start = 0;
        self.end = count;
        self.ended = count == 0;
        Ok(count > 0)
    }
}

impl Lines {
    // Takes bytes that are ahead into the part, up to a line feed or to the last that a stream may have.
    fn cut(&mut self, part: &mut Part) -> Step
        requires { 0 < length self.old.bytes }
        ensures ended { self.new.ended ≡ self.old.ended }
        ensures takes { StepTakes (Some self.old.bytes) (Some self.new.bytes) self.old.given self.new part.old part.new result }
        ensures within { self.new.given ≤ stream_limit }
        ensures ahead { length self.new.bytes ≤ most_ahead }
    {
        let piece = self.piece();
        if piece.is_empty() {
            return Step::TooMuch;
        }
        let at = line_feed_at(piece);
        let ends = at < piece.len();
        if part.extend(&piece[..at]).is_err() {
            return Step::Memory;
        }
        if ends {
            self.skip(at + 1);
            return Step::Ended;
        }
        self.skip(at);
        Step::More
    }

    // The bytes ahead that the stream may still have.
    fn piece(&self) -> &[u8]
        ensures bytes { result.now ≡ take (stream_limit - self.now.given) self.now.bytes }
        ensures within { self.now.given ≤ stream_limit }
        ensures ahead { length self.now.bytes ≤ most_ahead }
    {
        let ahead = &self.buffer[self.start..self.end];
        let most = (STREAM_LIMIT - self.given).min(ahead.len());
        &ahead[..most]
    }

    // Gives bytes that are ahead.
    fn skip(&mut self, count: usize)
        requires there { count ≤ length self.old.bytes }
        requires few { self.old.given + count ≤ stream_limit }
        ensures bytes { self.new.bytes ≡ drop count self.old.bytes }
        ensures ended { self.new.ended ≡ self.old.ended }
        ensures given { self.new.given ≡ self.old.given + count }
        ensures within { self.new.given ≤ stream_limit }
        ensures ahead { length self.new.bytes ≤ most_ahead }
    {
        self.start += count;
        self.given += count;
    }
}

// The place of the first line feed, else past the end.
fn line_feed_at(bytes: &[u8]) -> usize
    ensures { IsFeedAt bytes.now result }
{
    for (at, byte) in bytes.iter().enumerate() {
        if *byte == b'\n' {
            return at;
        }
    }
    bytes.len()
}
