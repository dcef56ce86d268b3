//! A session is opened from the slots, or begun where they hold none.
ghost use Rattle.std.specs.Prelude.{◌≡◌, ◌≤◌, None, false, length, IsSome, IsTrue, IfOk, string_bytes};
ghost use Rattle.xf_base.specs.Limits.{form_limit};
ghost use Rattle.xf_def_machine.specs.Program.{Program};
ghost use Rattle.xf_journal.specs.Moments.{OnlyLooks};
ghost use Rattle.xf_session.specs.Keeping.{IsAtDisk};
ghost use Rattle.xf_session.specs.Processing.{StartsAlone};
ghost use Rattle.xf_session.specs.Beginning.{IsBuilt, BeginsIn, ResumesIn, Spares};
ghost use Rattle.xf_session.specs.Replaying.{HasOpenCause};

use crate::looking::look;
use crate::reopening::reopened;
use crate::starting::started;
use crate::{EventFault, OpenFault, Processor, Session, Starting};
use std::alloc::Global;
use xf_disk::Disk;
use xf_store::Store;

/// Opens the session of this form that the slots hold, over a form that was constructed of these bytes, or begins one where they hold none: then the
/// form starts over the store, and the lines of its notes are appended. After `DiskFault` the new session may stand on the disk. After an `Err`
/// nothing is told of the text, but where the slots hold another session or a damaged one.
pub fn begin<P: Processor, C: Starting<P>, D: Disk, S: Store>(
    alloc: Global,
    form: &[u8],
    constructed: C,
    disk: &mut D,
    store: &mut S,
    notes: &mut String,
) -> Result<Session<P>, OpenFault>
    requires small { length form.now ≤ form_limit }
    ensures done { (program : Program) → IsBuilt form.now program (C.first constructed)
        → BeginsIn P.state D.tells D.seen D.may_leave D.moment D.left_since form.now program result
        (S.calls store.old, S.to_come store.old) (S.calls store.new, S.to_come store.new) (string_bytes notes.old) (string_bytes notes.new) disk.old disk.new }
    ensures looks { Spares result (OnlyLooks D.tells D.seen D.may_leave D.moment D.left_since disk.old disk.new) }
    ensures idle { IfOk result (λ session. P.kept session.processor ≡ None) }
    ensures rest { IsTrue (D.tells disk.old) → IfOk result (λ session. IsAtDisk D.seen D.may_leave session disk.new) }
    ensures whole { IfOk result (λ session. session.is_broken ≡ false) }
    ensures kept { IfOk result (λ session. IsSome session.journal) }
    ensures tells { D.tells disk.new ≡ D.tells disk.old }
    ensures cause { HasOpenCause (D.faults disk.old) (D.faults disk.new) result }
{
    match look(alloc, form, disk) {
        Ok(Some(found)) => match reopened(alloc, &found, constructed) {
            Ok(processor) => Ok(Session::new(alloc, processor, found.scanned.journal)),
            Err(fault) => Err(fault),
        },
        Ok(None) => started(alloc, form, constructed, disk, store, notes),
        Err(fault) => Err(fault),
    }
}

/// Opens the session of this form that the slots hold, over a form that was constructed of these bytes. It writes nothing.
pub fn resume<P: Processor, C: Starting<P>, D: Disk>(
    alloc: Global,
    form: &[u8],
    constructed: C,
    disk: &mut D,
) -> Result<Session<P>, OpenFault>
    ensures done { (program : Program) → IsBuilt form.now program (C.first constructed)
        → ResumesIn P.state D.tells D.seen D.may_leave D.moment D.left_since form.now program result disk.old disk.new }
    ensures looks { OnlyLooks D.tells D.seen D.may_leave D.moment D.left_since disk.old disk.new }
    ensures whole { IfOk result (λ session. session.is_broken ≡ false) }
    ensures kept { IfOk result (λ session. IsSome session.journal) }
    ensures idle { IfOk result (λ session. P.kept session.processor ≡ None) }
    ensures rest { IsTrue (D.tells disk.old) → IfOk result (λ session. IsAtDisk D.seen D.may_leave session disk.new) }
    ensures cause { HasOpenCause (D.faults disk.old) (D.faults disk.new) result }
{
    match look(alloc, form, disk) {
        Ok(Some(read)) => match reopened(alloc, &read, constructed) {
            Ok(processor) => Ok(Session::new(alloc, processor, read.scanned.journal)),
            Err(fault) => Err(fault),
        },
        Ok(None) => Err(OpenFault::NoSession),
        Err(fault) => Err(fault),
    }
}

/// Starts a form that is constructed, over the store, as a session that nothing keeps. The lines of the notes are appended. After an `Err` nothing is
/// told of the text.
pub fn start<P: Processor, C: Starting<P>, S: Store>(
    alloc: Global,
    constructed: C,
    store: &mut S,
    notes: &mut String,
) -> Result<Session<P>, EventFault>
    ensures done { StartsAlone (λ session. P.state session.processor) result (C.first constructed)
        (S.calls store.old, S.to_come store.old) (S.calls store.new, S.to_come store.new) (string_bytes notes.old) (string_bytes notes.new) }
    ensures idle { IfOk result (λ session. P.kept session.processor ≡ None) }
    ensures unkept { IfOk result (λ session. session.journal ≡ None) }
    ensures whole { IfOk result (λ session. session.is_broken ≡ false) }
{
    let mut processor = constructed.start(store, notes)?;
    processor.commit();
    Ok(Session::unkept(alloc, processor))
}
