//! Why an event or a construction is refused.

use std::alloc::AllocError;
use xf_def_machine::Refusal;

/// Why an event, a construction or a start is refused.
#[derive(Debug, Drop)]
pub enum WorkFault {
    Refused(Refusal),
    Memory,
}

impl From<AllocError> for WorkFault {
    ghost use Rattle.std.specs.Prelude.{◌≡◌};
    ghost use Rattle.xf_engine_state.specs.declared.fault.WorkFault.TheVariants.{Memory};

    ghost from_gives = { λ _ e. e ≡ Memory };

    fn from(_: AllocError) -> Self {
        WorkFault::Memory
    }
}
