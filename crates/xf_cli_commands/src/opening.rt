//! How the session of a form is opened, or begins.

ghost use Rattle.std.specs.Prelude.{◌≡◌, ◌≤◌, length, string_bytes, IfOk};
ghost use Rattle.xf_base.specs.Faults.{Rose};
ghost use Rattle.xf_base.specs.Limits.{form_limit};
ghost use Rattle.xf_def_machine.specs.Program.{Program};
ghost use Rattle.xf_def_machine.specs.StateText.{line_of};
ghost use Rattle.xf_def_machine.specs.FormReplies.{ready_text};
ghost use Rattle.xf_def_machine.specs.Told.{told};
ghost use Rattle.xf_session.specs.Beginning.{IsBuilt};
ghost use Rattle.xf_cli_commands.specs.Device.{device_of};
ghost use Rattle.xf_cli_commands.specs.Outside.{stored_of};
ghost use Rattle.xf_cli_commands.specs.Opening.{IsIdle, IsLineFor, OpensSo, ReopensSo, StandsAlone, StandsOpen, TriesSo};

use crate::line_session::LineSession;
use crate::slots::session_line;
use crate::status::SessionFault;
use std::alloc::{AllocError, Global};
use xf_def_machine::Refusal;
use xf_disk::Disk;
use xf_report::push_ready_refusal;
use xf_session as session;
use xf_session::{EventFault, OpenFault, Processor, Starting};
use xf_store::Store;

/// What comes of opening the slots for a form that is constructed.
#[derive(Drop)]
pub(crate) enum Opened<P: Processor> {
    /// The session; with the lines of the notes, where it has only begun.
    Session(LineSession<P>, String),
    /// There is no session, and the start is refused, with this line.
    Refused(String),
    /// The slots hold no session of the form, as this line says.
    NotOpened(String),
    DiskFailed,
    NoRoom,
}

/// Starts a form that is constructed, as a session that nothing keeps.
pub(crate) fn try_out<P: Processor, C: Starting<P>, S: Store>(
    alloc: Global,
    constructed: C,
    store: &mut S,
) -> Opened<P>
    ensures tries { TriesSo P.state (C.first constructed) (stored_of (S.calls store.old, S.to_come store.old) (S.calls store.new, S.to_come store.new)) result }
    ensures stands { StandsAlone P.kept result }
{
    let mut notes = String::new(alloc);
    match session::start(alloc, constructed, store, &mut notes) {
        Ok(session) => Opened::Session(LineSession { session }, notes),
        Err(EventFault::Refused(refusal)) => match refused_line(alloc, &refusal) {
            Ok(line) => Opened::Refused(line),
            Err(_) => Opened::NoRoom,
        },
        Err(EventFault::Memory) => Opened::NoRoom,
    }
}

/// Opens the session of the form with these bytes, or begins one where there is none.
pub(crate) fn open<P: Processor, C: Starting<P>, D: Disk, S: Store>(
    alloc: Global,
    form: &[u8],
    constructed: C,
    disk: &mut D,
    store: &mut S,
) -> Opened<P>
    requires small { length form.now ≤ form_limit }
    ensures opens { (program : Program) → IsBuilt form.now program (C.first constructed)
        → OpensSo P.state form.now program (device_of D.tells D.seen D.may_leave D.moment D.left_since D.faults disk.old disk.new)
        (stored_of (S.calls store.old, S.to_come store.old) (S.calls store.new, S.to_come store.new)) result }
    ensures stands { StandsOpen P.state P.kept (device_of D.tells D.seen D.may_leave D.moment D.left_since D.faults disk.old disk.new) result }
    ensures later { D.faults disk.old ≤ D.faults disk.new }
    ensures cause { result ≡ Opened.DiskFailed → Rose (D.faults disk.old) (D.faults disk.new) }
{
    let mut notes = String::new(alloc);
    match session::begin(alloc, form, constructed, disk, store, &mut notes) {
        Ok(session) => Opened::Session(LineSession { session }, notes),
        Err(OpenFault::Refused(refusal)) => match refused_line(alloc, &refusal) {
            Ok(line) => Opened::Refused(line),
            Err(_) => Opened::NoRoom,
        },
        Err(OpenFault::OtherForm(at)) => not_opened(alloc, SessionFault::OtherForm(at)),
        Err(OpenFault::Damaged(slot, at)) => not_opened(alloc, SessionFault::Damaged(slot, at)),
        // (it begins one then)
        Err(OpenFault::NoSession) => Opened::NoRoom,
        Err(OpenFault::DiskFault) => Opened::DiskFailed,
        Err(OpenFault::Memory) => Opened::NoRoom,
    }
}

/// Opens the session of the form with these bytes.
pub(crate) fn reopen<P: Processor, C: Starting<P>, D: Disk>(
    alloc: Global,
    form: &[u8],
    constructed: C,
    disk: &mut D,
) -> Opened<P>
    ensures opens { (program : Program) → IsBuilt form.now program (C.first constructed)
        → ReopensSo P.state P.kept form.now program (device_of D.tells D.seen D.may_leave D.moment D.left_since D.faults disk.old disk.new) result }
    ensures idle { IsIdle P.kept result }
    ensures cause { result ≡ Opened.DiskFailed → Rose (D.faults disk.old) (D.faults disk.new) }
{
    match session::resume(alloc, form, constructed, disk) {
        Ok(session) => Opened::Session(LineSession { session }, String::new(alloc)),
        // (nothing is started then)
        Err(OpenFault::Refused(_)) => Opened::NoRoom,
        Err(OpenFault::OtherForm(at)) => not_opened(alloc, SessionFault::OtherForm(at)),
        Err(OpenFault::Damaged(slot, at)) => not_opened(alloc, SessionFault::Damaged(slot, at)),
        Err(OpenFault::NoSession) => not_opened(alloc, SessionFault::NoSession),
        Err(OpenFault::DiskFault) => Opened::DiskFailed,
        Err(OpenFault::Memory) => Opened::NoRoom,
    }
}

fn not_opened<P: Processor>(alloc: Global, fault: SessionFault) -> Opened<P>
    ensures { IsLineFor fault result }
{
    match session_line(alloc, fault) {
        Ok(line) => Opened::NotOpened(line),
        Err(_) => Opened::NoRoom,
    }
}

fn refused_line(alloc: Global, refusal: &Refusal) -> Result<String, AllocError>
    ensures { IfOk result (λ line. string_bytes line ≡ line_of (ready_text (told refusal.now))) }
{
    let mut line = String::new(alloc);
    push_ready_refusal(&mut line, refusal)?;
    Ok(line)
}
