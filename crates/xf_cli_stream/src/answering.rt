//! Who answers a line, over a disk and a store.

ghost use Rattle.std.specs.Prelude.{◌≡◌, ◌≤◌, Err, length, string_bytes, IfOk, IfErr, OnOk};
ghost use Rattle.xf_base.specs.Faults.{Rose};
ghost use Rattle.xf_base.specs.Limits.{line_limit};

use std::alloc::{AllocError, AllocFailed, Global};
use xf_store::Store;

/// Why a line is not answered.
#[derive(Clone, Copy, Debug, PartialEq, Eq)]
pub enum AnswerFault {
    /// The disk failed, and what the line asked for may be kept or not.
    Disk,
    Memory,
}

impl From<AllocError> for AnswerFault {
    ghost use Rattle.std.specs.Prelude.{◌≡◌};
    ghost use Rattle.xf_cli_stream.specs.declared.answering.AnswerFault.TheVariants.{Memory};

    ghost from_gives = { λ _ e. e ≡ Memory };

    fn from(_: AllocError) -> Self {
        AnswerFault::Memory
    }
}

impl<T: Drop> From<AllocFailed<T>> for AnswerFault {
    ghost use Rattle.std.specs.Prelude.{◌≡◌};
    ghost use Rattle.xf_cli_stream.specs.declared.answering.AnswerFault.TheVariants.{Memory};

    ghost from_gives = { λ _ e. e ≡ Memory };

    fn from(_: AllocFailed<T>) -> Self {
        AnswerFault::Memory
    }
}

/// Who answers lines one after the other, each in the state that the one before left. What lines ask for may be kept on the disk.
pub trait Answering<D> {
    ghost use Rattle.std.specs.Prelude.{List, ℕ};
    ghost use Rattle.xf_cli_stream.specs.declared.answering.AnswerFault.{AnswerFault};
    ghost use Rattle.xf_store.specs.Called.{Told};

    /// What holds between two lines.
    ghost stands: { Self → D → Type 0 };

    /// For this line these bytes may be written, and this stands after it: beside who answers, what the store tells, and the disk.
    ghost answers: { Self × (Told × D) → List ℕ → List ℕ → Self × (Told × D) → Type 0 };

    /// Where there is no answer to this line, this may stand after it.
    ghost leaves: { AnswerFault → Self × (Told × D) → List ℕ → Self × (Told × D) → Type 0 };

    /// How often the disk has failed. The count never falls.
    ghost disk_faults: { D → ℕ };

    /// Does what a line of at most 65,536 bytes asks for, and gives the reply.
    fn answer<S: Store>(
        &mut self,
        alloc: Global,
        line: &[u8],
        disk: &mut D,
        store: &mut S,
    ) -> Result<String, AnswerFault>
        requires { stands self.old disk.old }
        ensures stands { OnOk result (stands self.new disk.new) }
        ensures reply { length line.now ≤ line_limit → IfOk result (λ text. answers (self.old, ((S.calls store.old, S.to_come store.old), disk.old)) line.now (string_bytes text) (self.new, ((S.calls store.new, S.to_come store.new), disk.new))) }
        ensures err { length line.now ≤ line_limit → IfErr result (λ fault. leaves fault (self.old, ((S.calls store.old, S.to_come store.old), disk.old)) line.now (self.new, ((S.calls store.new, S.to_come store.new), disk.new))) }
        ensures later { disk_faults disk.old ≤ disk_faults disk.new }
        ensures cause { result ≡ Err AnswerFault.Disk → Rose (disk_faults disk.old) (disk_faults disk.new) };
}
