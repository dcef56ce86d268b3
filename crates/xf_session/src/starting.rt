//! A session begins: the form starts, and the first journal is written.
ghost use Rattle.std.specs.Prelude.{◌≡◌, ◌≤◌, [], None, false, length, IfErr, IfOk, IsSome, IsTrue, string_bytes};
ghost use Rattle.xf_base.specs.Limits.{form_limit};
ghost use Rattle.xf_disk.specs.Crash.{IsSettled, LeavesOnly};
ghost use Rattle.xf_disk.specs.declared.slot.Slot.TheVariants.{A};
ghost use Rattle.xf_journal.specs.Entry.{is_within};
ghost use Rattle.xf_journal.specs.Scanned.{IsReady};
ghost use Rattle.xf_def_machine.specs.Program.{Program};
ghost use Rattle.xf_def_machine.specs.Replies.{answers_in};
ghost use Rattle.xf_def_sessions.specs.Images.{StandsForNone};
ghost use Rattle.xf_session.specs.Keeping.{IsAtDisk};
ghost use Rattle.xf_session.specs.Beginning.{IsBuilt, IsFirst, IsFirstIn, IsOfKeeping, HoldsOldOrFirst, Spares, StartsIn};
ghost use Rattle.xf_session.specs.Replaying.{HasOpenCause, start_image};

use crate::{OpenFault, Processor, Session, Starting};
use std::alloc::{AllocError, Global};
use xf_disk::{Disk, Slot};
use xf_io::Bytes;
use xf_journal::{Image, Journal, create, put_answers};
use xf_store::{Answers, Store};

/// Starts the form over the store, and keeps the session that has only started. The lines of the notes are appended.
pub(crate) fn started<P: Processor, C: Starting<P>, D: Disk, S: Store>(
    alloc: Global,
    form: &[u8],
    constructed: C,
    disk: &mut D,
    store: &mut S,
    notes: &mut String,
) -> Result<Session<P>, OpenFault>
    requires small { length form.now ≤ form_limit }
    ensures done { (program : Program) → IsBuilt form.now program (C.first constructed)
        → StartsIn P.state D.tells D.seen D.may_leave D.moment D.left_since form.now program result
        (S.calls store.old, S.to_come store.old) (S.calls store.new, S.to_come store.new) (string_bytes notes.old) (string_bytes notes.new) disk.old disk.new }
    ensures rest { IsTrue (D.tells disk.old) → StandsForNone (D.seen disk.old) → IsSettled (D.seen disk.old) (D.may_leave disk.old)
        → IfOk result (λ session. IsAtDisk D.seen D.may_leave session disk.new) }
    ensures idle { IfOk result (λ session. P.kept session.processor ≡ None) }
    ensures whole { IfOk result (λ session. session.is_broken ≡ false) }
    ensures is_kept { IfOk result (λ session. IsSome session.journal) }
    ensures spares { Spares result (disk.new ≡ disk.old) }
    ensures tells { D.tells disk.new ≡ D.tells disk.old }
    ensures cause { HasOpenCause (D.faults disk.old) (D.faults disk.new) result }
{
    match constructed.start(store, notes) {
        Ok(processor) => kept(alloc, form, processor, disk),
        Err(fault) => Err(OpenFault::from(fault)),
    }
}

/// Keeps the start that is pending.
fn kept<P: Processor, D: Disk>(
    alloc: Global,
    form: &[u8],
    started: P,
    disk: &mut D,
) -> Result<Session<P>, OpenFault>
    requires pending { IsSome (P.kept started) }
    requires small { length form.now ≤ form_limit }
    ensures state { IfOk result (λ session. P.state session.processor ≡ P.state started) }
    ensures each_moment { IsTrue (D.tells disk.old) → IsReady D.seen D.may_leave A 1 0 disk.old
        → LeavesOnly D.moment D.left_since disk.old disk.new (HoldsOldOrFirst (D.seen disk.old) form.now (answers_in (P.calls started))) }
    ensures done { IsTrue (D.tells disk.old) → IsReady D.seen D.may_leave A 1 0 disk.old
        → IfOk result (λ session. IsFirstIn D.seen D.may_leave form.now (answers_in (P.calls started)) session.journal disk.new) }
    ensures is_kept { IfOk result (λ session. IsSome session.journal) }
    ensures whole { IfOk result (λ session. session.is_broken ≡ false) }
    ensures idle { IfOk result (λ session. P.kept session.processor ≡ None) }
    ensures only { IfErr result IsOfKeeping }
    ensures spares { Spares result (disk.new ≡ disk.old) }
    ensures tells { D.tells disk.new ≡ D.tells disk.old }
    ensures cause { HasOpenCause (D.faults disk.old) (D.faults disk.new) result }
{
    let mut processor = started;
    match first_journal(alloc, form, &processor, disk) {
        Ok(journal) => {
            processor.commit();
            Ok(Session::new(alloc, processor, journal))
        }
        Err(fault) => Err(fault),
    }
}

/// Writes the journal of a session that has only started into slot A.
fn first_journal<P: Processor, D: Disk>(
    alloc: Global,
    form: &[u8],
    processor: &P,
    disk: &mut D,
) -> Result<Journal, OpenFault>
    requires pending { IsSome (P.kept processor.now) }
    requires small { length form.now ≤ form_limit }
    ensures each_moment { IsTrue (D.tells disk.old) → IsReady D.seen D.may_leave A 1 0 disk.old
        → LeavesOnly D.moment D.left_since disk.old disk.new (HoldsOldOrFirst (D.seen disk.old) form.now (answers_in (P.calls processor.now))) }
    ensures done { IsTrue (D.tells disk.old) → IsReady D.seen D.may_leave A 1 0 disk.old
        → IfOk result (λ journal. IsFirst D.seen D.may_leave form.now (answers_in (P.calls processor.now)) journal disk.new) }
    ensures only { IfErr result IsOfKeeping }
    ensures spares { Spares result (disk.new ≡ disk.old) }
    ensures tells { D.tells disk.new ≡ D.tells disk.old }
    ensures cause { HasOpenCause (D.faults disk.old) (D.faults disk.new) result }
{
    let answers = processor.answers()?;
    let image = first_image(alloc, form, &answers)?;
    match create(disk, Slot::A, 1, &image) {
        Ok(journal) => Ok(journal),
        Err(_) => Err(OpenFault::DiskFault),
    }
}

/// What is written of a session that has only started: its base are the answers of the start.
fn first_image(alloc: Global, form: &[u8], answers: &Answers) -> Result<Image, AllocError>
    requires { IsTrue (is_within [] answers.now) }
    ensures { IfOk result (λ image. image ≡ start_image form.now answers.now) }
{
    let mut base = Vec::with_capacity(alloc, 2)?;
    base.push(0)?;
    put_answers(&mut base, answers)?;
    let form = Vec::from_slice(alloc, form)?;
    Ok(Image {
        adoptions: 0,
        form: Bytes::from_vec(form),
        base: Bytes::from_vec(base),
    })
}
