//! What a run was asked for, and how it ends.

use xf_cli_stream::Ending;
use xf_disk::Slot;

/// A command of the program.
#[derive(Clone, Copy, Debug, PartialEq, Eq)]
pub enum Command {
    /// The session of the form is opened, or begins; then the lines of the events are answered, and each accepted event is kept.
    Run,
    /// The form starts, and the lines of the events are answered.
    Try,
    /// The session of the form is opened, and its state is written.
    Show,
    /// The form is loaded and constructed, and no more.
    Check,
}

/// Why there is no session of the form in the slots.
#[derive(Clone, Copy, Debug, PartialEq, Eq)]
pub(crate) enum SessionFault {
    /// It is one of another form, whose bytes differ at this place first.
    OtherForm(u64),
    /// What stands at this offset of this slot is not what the program wrote.
    Damaged(Slot, u64),
    NoSession,
}

/// How a run ends.
#[derive(Debug, Drop)]
pub enum Status {
    /// The words spell no command.
    Usage,
    /// The form is refused, with this line.
    Refused(String),
    /// The form is accepted, where that alone was asked.
    Checked,
    /// The form could not be read.
    Unread,
    /// The disk failed before a line of the events was read.
    DiskFailed,
    /// The slots hold no session of the form, as this line says.
    NotOpened(String),
    /// The state is written.
    Shown,
    /// The state could not be written.
    NotShown,
    /// Memory was wanting before a line of the events was read.
    NoRoom,
    Answered(Ending),
}
