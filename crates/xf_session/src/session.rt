//! A session: a processor, and the journal by which it outlasts a crash.
ghost use Rattle.std.specs.Prelude.{◌≡◌, ◌≤◌, None, Some, false, length, nat_lt, IsSome, IsTrue, OnOk, string_bytes};
ghost use Rattle.xf_base.specs.Limits.{line_limit, used_limit};
ghost use Rattle.xf_disk.specs.Crash.{LeavesOnly};
ghost use Rattle.xf_journal.specs.Held.{Log};
ghost use Rattle.xf_journal.specs.Scanned.{HoldsEither, with_accepted};
ghost use Rattle.xf_def_machine.specs.Replies.{answers_in};
ghost use Rattle.xf_def_machine.specs.Step.{step};
ghost use Rattle.xf_def_form.specs.Formed.{profile};
ghost use Rattle.xf_session.specs.Keeping.{IsAtDisk, Rests, RestsAs, used_in};
ghost use Rattle.xf_session.specs.Posting.{PostsIn, HasPostCause, IsKept, KeepsAs};

use crate::{PostFault, Processor};
use std::alloc::Global;
use xf_base::limits::USED_LIMIT;
use xf_disk::Disk;
use xf_journal::{Journal, make_entry};
use xf_line::Event;
use xf_store::Store;

/// A session of a form: who runs it, and the journal that keeps it, if it is kept. After a fault of the disk it is broken: the slots are to be opened
/// again.
#[derive(Drop)]
pub struct Session<P: Processor> {
    pub(crate) alloc: Global,
    pub(crate) processor: P,
    pub(crate) journal: Option<Journal>,
    pub(crate) is_broken: bool,
}

impl<P: Processor> Session<P> {
    /// The session that a journal keeps.
    pub(crate) fn new(alloc: Global, processor: P, journal: Journal) -> Session<P>
        ensures processor { result.processor ≡ processor }
        ensures journal { result.journal ≡ Some journal }
        ensures whole { result.is_broken ≡ false }
    {
        Session {
            alloc,
            processor,
            journal: Some(journal),
            is_broken: false,
        }
    }

    /// A session that nothing keeps.
    pub(crate) fn unkept(alloc: Global, processor: P) -> Session<P>
        ensures processor { result.processor ≡ processor }
        ensures journal { result.journal ≡ None }
        ensures whole { result.is_broken ≡ false }
    {
        Session {
            alloc,
            processor,
            journal: None,
            is_broken: false,
        }
    }

    /// Who runs the form.
    pub fn processor(&self) -> &P
        ensures { result.now ≡ self.now.processor }
    {
        &self.processor
    }

    /// Does the event of a line, and keeps it, where the session is kept: after `Ok` each crash leaves it, and its lines, which are appended, may be
    /// told. After a refusal or want of memory the session is as before. After `DiskFault` it is broken, and the event may stand on the disk. After an `Err` nothing is told
    /// of the text.
    pub fn post<D: Disk, S: Store>(
        &mut self,
        line: &[u8],
        event: &Event,
        disk: &mut D,
        store: &mut S,
        text: &mut String,
    ) -> Result<(), PostFault>
        requires idle { P.kept self.old.processor ≡ None }
        requires line { length line.now ≤ line_limit }
        requires rest { IsTrue (D.tells disk.old) → IsAtDisk D.seen D.may_leave self.old disk.old }
        ensures done { PostsIn P.state D.tells D.seen D.may_leave D.moment D.left_since self.old line.now event.now result self.new
            (S.calls store.old, S.to_come store.old) (S.calls store.new, S.to_come store.new) (string_bytes text.old) (string_bytes text.new)
            (step profile (P.state self.old.processor) event.now) disk.old disk.new }
        ensures idle { P.kept self.new.processor ≡ None }
        ensures rest { IsTrue (D.tells disk.old) → IsAtDisk D.seen D.may_leave self.new disk.new }
        ensures tells { D.tells disk.new ≡ D.tells disk.old }
        ensures cause { HasPostCause (D.faults disk.old) (D.faults disk.new) result }
    {
        if self.is_broken {
            return Err(PostFault::Broken);
        }
        if self.is_full() {
            return Err(PostFault::NotBuilt);
        }
        self.processor.post(event, store, text)?;
        match self.keep(line, disk) {
            Ok(()) => {
                self.processor.commit();
                Ok(())
            }
            Err(fault) => {
                self.processor.roll_back();
                Err(fault)
            }
        }
    }

    /// Whether the slot in use has so many bytes in use that no event is added.
    fn is_full(&self) -> bool
        ensures { result ≡ nat_lt used_limit (used_in self.now.journal) }
    {
        match &self.journal {
            Some(journal) => journal.used() > USED_LIMIT,
            None => false,
        }
    }

    /// Appends an entry with this line and the answers that the event got which is pending, where the session is kept.
    fn keep<D: Disk>(&mut self, line: &[u8], disk: &mut D) -> Result<(), PostFault>
        requires pending { IsSome (P.kept self.old.processor) }
        requires line { length line.now ≤ line_limit }
        requires room { used_in self.old.journal ≤ used_limit }
        requires rest { IsTrue (D.tells disk.old) → Rests D.seen D.may_leave self.old.journal disk.old }
        ensures each_moment { IsTrue (D.tells disk.old) → (log : Log) → RestsAs D.seen D.may_leave self.old.journal log disk.old
            → LeavesOnly D.moment D.left_since disk.old disk.new (HoldsEither log (with_accepted log line.now (answers_in (P.calls self.old.processor)))) }
        ensures done { IsTrue (D.tells disk.old) → (log : Log) → RestsAs D.seen D.may_leave self.old.journal log disk.old
            → OnOk result (RestsAs D.seen D.may_leave self.new.journal (with_accepted log line.now (answers_in (P.calls self.old.processor))) disk.new) }
        ensures kept { IsKept self.old result self.new disk.old disk.new }
        ensures keeps { KeepsAs self.old.journal result self.new.journal disk.old disk.new }
        ensures tells { D.tells disk.new ≡ D.tells disk.old }
        ensures cause { HasPostCause (D.faults disk.old) (D.faults disk.new) result }
    {
        let Some(journal) = &mut self.journal else {
            return Ok(());
        };
        let answers = self.processor.answers()?;
        let entry = make_entry(self.alloc, line, &answers)?;
        match journal.append(disk, &entry) {
            Ok(()) => Ok(()),
            Err(_) => {
                self.is_broken = true;
                Err(PostFault::DiskFault)
            }
        }
    }
}
