//! Why indexes are not brought up to date.

use std::alloc::AllocError;
use thiserror::Error;
use xf_eval::EvalFault;

/// Why indexes are not brought up to date.
#[derive(Clone, Copy, Debug, PartialEq, Eq, Error)]
pub enum IndexFault {
    /// A string is too long.
    #[error("a string is too long")]
    Long,
    /// One pass more than the most would be needed.
    #[error("too many passes over the indexes")]
    Passes,
    #[error("out of memory")]
    Memory,
}

impl From<AllocError> for IndexFault {
    ghost use Rattle.std.specs.Prelude.{◌≡◌};
    ghost use Rattle.xf_repeat.specs.declared.fault.IndexFault.TheVariants.{Memory};

    ghost from_gives = { λ _ e. e ≡ Memory };

    fn from(_: AllocError) -> Self {
        IndexFault::Memory
    }
}

impl From<EvalFault> for IndexFault {
    ghost use Rattle.std.specs.Prelude.{◌≡◌};
    ghost use Rattle.xf_repeat.specs.Passes.{stopped};

    ghost from_gives = { λ fault e. e ≡ stopped fault };

    fn from(fault: EvalFault) -> Self {
        match fault {
            EvalFault::Long => IndexFault::Long,
            EvalFault::Memory => IndexFault::Memory,
        }
    }
}
