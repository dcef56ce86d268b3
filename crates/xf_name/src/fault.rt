//! Why a name has no meaning.

use std::alloc::{AllocError, AllocFailed};

/// Why a name, or a form by its names, has no meaning.
#[derive(Clone, Copy, Debug, PartialEq, Eq)]
pub enum NameFault {
    /// The text is no name, or two attributes of an element have the same one.
    BadName,
    PrefixUnknown,
    /// A second, different namespace for a prefix, or an empty one.
    PrefixRebound,
    /// More than 256 namespaces or 32,768 prefixes in a form.
    TooMany,
    Memory,
}

/// Why a form was not surveyed.
#[derive(Clone, Copy, Debug, PartialEq, Eq)]
pub enum SurveyFault {
    /// More than 256 namespaces or 32,768 prefixes.
    TooMany,
    Memory,
}

impl From<AllocError> for NameFault {
    ghost use Rattle.std.specs.Prelude.{◌≡◌};
    ghost use Rattle.xf_name.specs.declared.fault.NameFault.TheVariants.{Memory};

    ghost from_gives = { λ _ e. e ≡ Memory };

    fn from(_: AllocError) -> Self {
        NameFault::Memory
    }
}

impl From<AllocError> for SurveyFault {
    ghost use Rattle.std.specs.Prelude.{◌≡◌};
    ghost use Rattle.xf_name.specs.declared.fault.SurveyFault.TheVariants.{Memory};

    ghost from_gives = { λ _ e. e ≡ Memory };

    fn from(_: AllocError) -> Self {
        SurveyFault::Memory
    }
}

impl<T: Drop> From<AllocFailed<T>> for SurveyFault {
    ghost use Rattle.std.specs.Prelude.{◌≡◌};
    ghost use Rattle.xf_name.specs.declared.fault.SurveyFault.TheVariants.{Memory};

    ghost from_gives = { λ _ e. e ≡ Memory };

    fn from(_: AllocFailed<T>) -> Self {
        SurveyFault::Memory
    }
}
