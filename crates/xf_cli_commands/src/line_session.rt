//! What a line of the events asks for, done by a session.

ghost use Rattle.std.specs.Prelude.{◌≡◌, ◌≤◌, false, None, Ok, Err, length, string_bytes, IfErr, IfOk, OnOk};
ghost use Rattle.std.specs.List.{list_all};
ghost use Rattle.xf_base.specs.Faults.{Rose};
ghost use Rattle.xf_base.specs.Limits.{line_limit};
ghost use Rattle.xf_line.specs.Line.{asked_by};
ghost use Rattle.xf_line.specs.declared.event.Asked.TheVariants as asked;
ghost use Rattle.xf_def_machine.specs.ControlText.{state_text};
ghost use Rattle.xf_def_machine.specs.Replies.{is_blank};
ghost use Rattle.xf_def_machine.specs.StateText.{line_of};
ghost use Rattle.xf_def_form.specs.Formed.{profile};
ghost use Rattle.xf_report.specs.Refusals.{refusal_text};
ghost use Rattle.xf_cli_commands.specs.Kept.{SessionAnswers, SessionLeaves, StandsBetween, views_of};

use crate::line::{Wants, refused_text, wanted};
use std::alloc::{AllocError, Global};
use xf_cli_stream::{AnswerFault, Answering};
use xf_disk::Disk;
use xf_line::{Asked, Event};
use xf_session::{PostFault, Processor, Session};
use xf_store::Store;

/// A session, whose events come as lines.
#[derive(Drop)]
pub(crate) struct LineSession<P: Processor> {
    pub session: Session<P>,
}

impl<P: Processor, D: Disk> Answering<D> for LineSession<P> {
    ghost use Rattle.xf_cli_commands.specs.Kept.{SessionAnswers, SessionLeaves, StandsBetween, views_of};

    ghost stands = { λ lines disk. StandsBetween (views_of P.state D.tells D.seen D.may_leave D.moment D.left_since) P.kept lines.session disk };

    ghost answers = { λ first line text last. SessionAnswers (views_of P.state D.tells D.seen D.may_leave D.moment D.left_since) (first.0.session, first.1) line text (last.0.session, last.1) };

    ghost leaves = { λ fault first line last. SessionLeaves (views_of P.state D.tells D.seen D.may_leave D.moment D.left_since) fault (first.0.session, first.1) line (last.0.session, last.1) };

    ghost disk_faults = { D.faults };

    fn answer<S: Store>(
        &mut self,
        alloc: Global,
        line: &[u8],
        disk: &mut D,
        store: &mut S,
    ) -> Result<String, AnswerFault> {
        match wanted(alloc, line) {
            Wants::Asked(Asked::Show) => match self.state_text(alloc) {
                Ok(text) => Ok(text),
                Err(_) => Err(AnswerFault::Memory),
            },
            Wants::Asked(Asked::Event(event)) => self.post(alloc, line, &event, disk, store),
            Wants::Said(text) => Ok(text),
            Wants::NoRoom => Err(AnswerFault::Memory),
        }
    }
}

impl<P: Processor> LineSession<P> {
    /// The state, as it is written.
    pub fn state_text(&self, alloc: Global) -> Result<String, AllocError>
        requires { P.kept self.now.session.processor ≡ None }
        ensures { IfOk result (λ text. string_bytes text ≡ state_text profile (P.state self.now.session.processor)) }
    {
        let mut text = String::new(alloc);
        self.session.processor().push_state(&mut text)?;
        Ok(text)
    }

    /// Does the event of a line, and gives its reply.
    fn post<D: Disk, S: Store>(
        &mut self,
        alloc: Global,
        line: &[u8],
        event: &Event,
        disk: &mut D,
        store: &mut S,
    ) -> Result<String, AnswerFault>
        requires stands { StandsBetween (views_of P.state D.tells D.seen D.may_leave D.moment D.left_since) P.kept self.old.session disk.old }
        requires short { length line.now ≤ line_limit }
        ensures stands { OnOk result (StandsBetween (views_of P.state D.tells D.seen D.may_leave D.moment D.left_since) P.kept self.new.session disk.new) }
        ensures reply { asked_by line.now ≡ Ok (asked.Event event.now) → list_all is_blank line.now ≡ false
            → IfOk result (λ text. SessionAnswers (views_of P.state D.tells D.seen D.may_leave D.moment D.left_since)
            (self.old.session, ((S.calls store.old, S.to_come store.old), disk.old)) line.now (string_bytes text) (self.new.session, ((S.calls store.new, S.to_come store.new), disk.new))) }
        ensures err { asked_by line.now ≡ Ok (asked.Event event.now) → list_all is_blank line.now ≡ false
            → IfErr result (λ fault. SessionLeaves (views_of P.state D.tells D.seen D.may_leave D.moment D.left_since) fault
            (self.old.session, ((S.calls store.old, S.to_come store.old), disk.old)) line.now (self.new.session, ((S.calls store.new, S.to_come store.new), disk.new))) }
        ensures later { D.faults disk.old ≤ D.faults disk.new }
        ensures cause { result ≡ Err AnswerFault.Disk → Rose (D.faults disk.old) (D.faults disk.new) }
    {
        let mut text = String::new(alloc);
        match self.session.post(line, event, disk, store, &mut text) {
            Ok(()) => Ok(text),
            Err(PostFault::Refused(refusal)) => match refused_text(alloc, &refusal) {
                Ok(text) => Ok(text),
                Err(_) => Err(AnswerFault::Memory),
            },
            Err(PostFault::NotBuilt) => match String::from_str(alloc, "no E15 NotBuilt\n") {
                Ok(text) => Ok(text),
                Err(_) => Err(AnswerFault::Memory),
            },
            Err(PostFault::DiskFault) => Err(AnswerFault::Disk),
            Err(PostFault::Broken) => Err(AnswerFault::Disk),
            Err(PostFault::Memory) => Err(AnswerFault::Memory),
        }
    }
}
