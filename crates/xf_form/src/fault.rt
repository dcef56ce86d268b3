//! Why a form is refused.

use std::alloc::AllocError;
use xf_name::Word;

/// Why bytes are no form.
#[derive(Debug, Drop)]
pub enum FormFault {
    /// The number of the refusal, and its place: a path in the form, for a limit its word, or nothing.
    Refused(u8, Word),
    Memory,
}

impl From<AllocError> for FormFault {
    ghost use Rattle.std.specs.Prelude.{◌≡◌};
    ghost use Rattle.xf_form.specs.declared.fault.FormFault.TheVariants.{Memory};

    ghost from_gives = { λ _ e. e ≡ Memory };

    fn from(_: AllocError) -> Self {
        FormFault::Memory
    }
}
