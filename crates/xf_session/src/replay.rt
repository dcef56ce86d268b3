//! Entries are played again: each event over the answers that it got.
ghost use Rattle.std.specs.Prelude.{◌≡◌, ◌≤◌, None, Some, true, false, length, drop, if◌then◌else◌, IsSome, IsTrue, IfOk};
ghost use Rattle.std.specs.List.{list_all};
ghost use Rattle.xf_store.specs.Replies.{is_short};
ghost use Rattle.xf_journal.specs.Entry.{is_within, are_within};
ghost use Rattle.xf_def_machine.specs.Replies.{answers_in};
ghost use Rattle.xf_def_machine.specs.Run.{if_exact};
ghost use Rattle.xf_def_machine.specs.Step.{step};
ghost use Rattle.xf_def_form.specs.Formed.{profile};
ghost use Rattle.xf_def_sessions.specs.Images.{item_of};
ghost use Rattle.xf_def_sessions.specs.Opening.{state_after};
ghost use Rattle.xf_session.specs.Replaying.{same_answers, played};

use crate::answers::{are_same, copy_of};
use crate::{EventFault, Processor};
use std::alloc::{AllocError, Global};
use xf_journal::Accepted;
use xf_line::{Asked, Event, LineFault, read_line};
use xf_store::{Answers, Canned};

/// Plays entries again up to the first that is no event or is not accepted with exactly its answers, and gives the number of those before it.
pub(crate) fn play<P: Processor>(
    alloc: Global,
    processor: &mut P,
    entries: &[Accepted],
) -> Result<usize, AllocError>
    requires idle { P.kept processor.old ≡ None }
    requires within { IsTrue (are_within entries.now) }
    ensures done { IfOk result (λ count. (played profile (P.state processor.old) entries.now ≡ (P.state processor.new, drop count entries.now)) × (count ≤ length entries.now)) }
    ensures idle { IfOk result (λ count. P.kept processor.new ≡ None) }
{
    let mut count = 0;
    let mut text = String::new(alloc);
    while count < entries.len() {
        text.clear();
        if !play_entry(alloc, processor, &entries[count], &mut text)? {
            return Ok(count);
        }
        count += 1;
    }
    Ok(count)
}

/// Plays one entry again: whether it was taken. Its lines are appended, and mean nothing.
fn play_entry<P: Processor>(
    alloc: Global,
    processor: &mut P,
    entry: &Accepted,
    text: &mut String,
) -> Result<bool, AllocError>
    requires idle { P.kept processor.old ≡ None }
    requires within { IsTrue (is_within entry.now.line entry.now.answers) }
    ensures done { IfOk result (λ is_taken. state_after profile (P.state processor.old) (item_of entry.now) ≡ (if is_taken then Some (P.state processor.new) else None)) }
    ensures same { IfOk result (λ is_taken. is_taken ≡ false → P.state processor.new ≡ P.state processor.old) }
    ensures idle { IfOk result (λ is_taken. P.kept processor.new ≡ None) }
{
    let event = match read_line(alloc, entry.line.as_slice()) {
        Ok(Asked::Event(event)) => event,
        Err(LineFault::Memory) => return Err(AllocError),
        _ => return Ok(false),
    };
    play_event(alloc, processor, &event, &entry.answers, text)
}

/// Does an event again over the answers that it got: whether it is accepted with exactly these.
fn play_event<P: Processor>(
    alloc: Global,
    processor: &mut P,
    event: &Event,
    answers: &Answers,
    text: &mut String,
) -> Result<bool, AllocError>
    requires idle { P.kept processor.old ≡ None }
    requires short { IsTrue (list_all is_short answers.now) }
    ensures done { IfOk result (λ is_taken. if_exact answers.now (step profile (P.state processor.old) event.now answers.now) ≡ (if is_taken then Some (P.state processor.new) else None)) }
    ensures same { IfOk result (λ is_taken. is_taken ≡ false → P.state processor.new ≡ P.state processor.old) }
    ensures idle { IfOk result (λ is_taken. P.kept processor.new ≡ None) }
{
    let mut store = Canned::new(copy_of(alloc, answers)?);
    match processor.post(event, &mut store, text) {
        Ok(()) => keep_exact(processor, answers),
        Err(EventFault::Refused(_)) => Ok(false),
        Err(EventFault::Memory) => Err(AllocError),
    }
}

/// Keeps what is pending where it got exactly these answers, and else takes it back.
pub(crate) fn keep_exact<P: Processor>(
    processor: &mut P,
    answers: &Answers,
) -> Result<bool, AllocError>
    requires { IsSome (P.kept processor.old) }
    ensures exact { IfOk result (λ is_kept. same_answers (answers_in (P.calls processor.old)) answers.now ≡ is_kept) }
    ensures kept { IfOk result (λ is_kept. is_kept ≡ true → P.state processor.new ≡ P.state processor.old) }
    ensures back { IfOk result (λ is_kept. is_kept ≡ false → P.kept processor.old ≡ Some (P.state processor.new)) }
    ensures idle { IfOk result (λ is_kept. P.kept processor.new ≡ None) }
{
    let given = processor.answers()?;
    let is_exact = are_same(given.as_slice(), answers.as_slice());
    if is_exact {
        processor.commit();
    } else {
        processor.roll_back();
    }
    Ok(is_exact)
}
