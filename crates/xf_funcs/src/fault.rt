//! Why a call has no value.

use std::alloc::{AllocError, AllocFailed};

/// Why a call of a function has no value.
#[derive(Clone, Copy, Debug, PartialEq, Eq)]
pub enum FuncFault {
    /// A string made on the way has more than 4 MiB.
    Long,
    Memory,
}

impl From<AllocError> for FuncFault {
    ghost use Rattle.std.specs.Prelude.{◌≡◌};
    ghost use Rattle.xf_funcs.specs.declared.fault.FuncFault.TheVariants.{Memory};

    ghost from_gives = { λ _ e. e ≡ Memory };

    fn from(_: AllocError) -> Self {
        FuncFault::Memory
    }
}

impl<T: Drop> From<AllocFailed<T>> for FuncFault {
    ghost use Rattle.std.specs.Prelude.{◌≡◌};
    ghost use Rattle.xf_funcs.specs.declared.fault.FuncFault.TheVariants.{Memory};

    ghost from_gives = { λ _ e. e ≡ Memory };

    fn from(_: AllocFailed<T>) -> Self {
        FuncFault::Memory
    }
}
