//! Who makes a form of its bytes.
ghost use Rattle.xf_session.specs.Constructing.{Constructs};

use crate::{Processor, Starting};
use std::alloc::Global;
use xf_def_machine::Refusal;
use xf_name::Word;

/// Why no form is made of bytes.
#[derive(Debug, Drop)]
pub enum FormFault {
    /// They are no form: the number of the refusal, and its place: a path in the form, for a limit its word, or nothing.
    NotForm(u8, Word),
    /// They are a form whose construction is refused.
    Refused(Refusal),
    Memory,
}

/// Who makes a form of its bytes: it is loaded and constructed (XForms 1.1, section 4.2.1).
pub trait Forms<P: Processor, C: Starting<P>> {
    /// The form of these bytes, constructed; or the first refusal.
    fn construct(&self, alloc: Global, bytes: &[u8]) -> Result<C, FormFault>
        ensures { Constructs C.first bytes.now result };
}
