//! Why a session is not opened, and why it does not take an event.

use std::alloc::AllocError;
use xf_actions::EventFault;
use xf_def_machine::Refusal;
use xf_disk::Slot;
use xf_journal::JournalFault;

/// Why a session does not take an event.
#[derive(Debug, Drop)]
pub enum PostFault {
    Refused(Refusal),
    /// The slot in use has more than 2^25 bytes in use: the event was not looked at.
    NotBuilt,
    /// A call of the disk failed: the event may stand there, and is taken back in memory.
    DiskFault,
    /// An earlier call of this session answered `DiskFault`.
    Broken,
    Memory,
}

/// Why a session is neither opened nor begun.
#[derive(Debug, Drop)]
pub enum OpenFault {
    /// The slots hold no session, and the start of the form is refused.
    Refused(Refusal),
    /// The slots hold a session of another form: its bytes differ at this place first.
    OtherForm(u64),
    /// What stands at this offset of this slot is not what the processor wrote.
    Damaged(Slot, u64),
    /// Both slots are closed, and none is to begin.
    NoSession,
    /// A call of the disk failed.
    DiskFault,
    Memory,
}

impl From<EventFault> for PostFault {
    ghost use Rattle.std.specs.Prelude.{◌≡◌};
    ghost use Rattle.xf_session.specs.Faults.{of_event};

    ghost from_gives = { λ fault given. given ≡ of_event fault };

    fn from(fault: EventFault) -> Self {
        match fault {
            EventFault::Refused(refusal) => PostFault::Refused(refusal),
            EventFault::Memory => PostFault::Memory,
        }
    }
}

impl From<AllocError> for PostFault {
    ghost use Rattle.std.specs.Prelude.{◌≡◌};
    ghost use Rattle.xf_session.specs.declared.fault.PostFault.TheVariants.{Memory};

    ghost from_gives = { λ _ fault. fault ≡ Memory };

    fn from(_: AllocError) -> Self {
        PostFault::Memory
    }
}

impl From<AllocError> for OpenFault {
    ghost use Rattle.std.specs.Prelude.{◌≡◌};
    ghost use Rattle.xf_session.specs.declared.fault.OpenFault.TheVariants.{Memory};

    ghost from_gives = { λ _ fault. fault ≡ Memory };

    fn from(_: AllocError) -> Self {
        OpenFault::Memory
    }
}

impl From<JournalFault> for OpenFault {
    ghost use Rattle.std.specs.Prelude.{◌≡◌};
    ghost use Rattle.xf_session.specs.Faults.{of_journal};

    ghost from_gives = { λ fault given. given ≡ of_journal fault };

    fn from(fault: JournalFault) -> Self {
        match fault {
            JournalFault::DiskFault => OpenFault::DiskFault,
            JournalFault::Damaged(slot, at) => OpenFault::Damaged(slot, at),
            JournalFault::Memory => OpenFault::Memory,
        }
    }
}

impl From<EventFault> for OpenFault {
    ghost use Rattle.std.specs.Prelude.{◌≡◌};
    ghost use Rattle.xf_session.specs.Faults.{of_start};

    ghost from_gives = { λ fault given. given ≡ of_start fault };

    fn from(fault: EventFault) -> Self {
        match fault {
            EventFault::Refused(refusal) => OpenFault::Refused(refusal),
            EventFault::Memory => OpenFault::Memory,
        }
    }
}
