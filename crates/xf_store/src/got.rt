//! What a get gives.
ghost use Rattle.std.specs.Prelude.{◌≡◌};
ghost use Rattle.xf_store.specs.declared.got.GetFault.TheVariants.{Memory};

use std::alloc::{AllocError, AllocFailed};

/// What a get gives.
#[derive(Clone, Copy, Debug, PartialEq, Eq)]
pub enum Got {
    /// The bytes that stand under the name.
    Found,
    /// Nothing stands under the name.
    Absent,
    /// More than 2^20 bytes stand under the name.
    TooLong,
}

/// Why a get gave nothing.
#[derive(Clone, Copy, Debug, PartialEq, Eq)]
pub enum GetFault {
    /// The store failed, and counts it.
    Failed,
    Memory,
}

impl From<AllocError> for GetFault {
    ghost from_gives = { λ _ fault. fault ≡ Memory };

    fn from(_: AllocError) -> Self {
        GetFault::Memory
    }
}

impl<T: Drop> From<AllocFailed<T>> for GetFault {
    ghost from_gives = { λ _ fault. fault ≡ Memory };

    fn from(_: AllocFailed<T>) -> Self {
        GetFault::Memory
    }
}
