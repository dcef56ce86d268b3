//! Why the slots were not read.
ghost use Rattle.std.specs.Prelude.{◌≡◌};
ghost use Rattle.xf_journal.specs.declared.fault.JournalFault.TheVariants.{DiskFault, Memory};

use std::alloc::{AllocError, AllocFailed};
use thiserror::Error;
use xf_disk::Slot;
use xf_io::Failed;

/// Why the slots were not read.
#[derive(Clone, Copy, Debug, PartialEq, Eq, Error)]
pub enum JournalFault {
    /// A call of the disk failed.
    #[error("disk fault")]
    DiskFault,
    /// The field at this offset of this slot is not one that the processor wrote.
    #[error("damaged")]
    Damaged(Slot, u64),
    #[error("out of memory")]
    Memory,
}

impl From<Failed> for JournalFault {
    ghost from_gives = { λ _ fault. fault ≡ DiskFault };

    fn from(_: Failed) -> Self {
        JournalFault::DiskFault
    }
}

impl From<AllocError> for JournalFault {
    ghost from_gives = { λ _ fault. fault ≡ Memory };

    fn from(_: AllocError) -> Self {
        JournalFault::Memory
    }
}

impl<T: Drop> From<AllocFailed<T>> for JournalFault {
    ghost from_gives = { λ _ fault. fault ≡ Memory };

    fn from(_: AllocFailed<T>) -> Self {
        JournalFault::Memory
    }
}
