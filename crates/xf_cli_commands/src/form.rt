//! Reading a form.

ghost use Rattle.std.specs.Prelude.{◌≡◌};
ghost use Rattle.xf_base.specs.Faults.{Rose};
ghost use Rattle.xf_cli_commands.specs.Outside.{TakesForm};
ghost use Rattle.xf_cli_commands.specs.Finish.{GivesReading};

use std::alloc::Global;
use xf_base::limits::FORM_LIMIT;
use xf_io::{Bytes, Source};

/// What comes of reading a form.
#[derive(Drop)]
pub(crate) enum Reading {
    /// All of its bytes, or one more than it may have.
    All(Bytes),
    Fault,
    Memory,
}

/// The bytes of a form, to their end or to the first that is too many.
pub(crate) fn read_form<F: Source>(alloc: Global, form: &mut F) -> Reading
    ensures bytes { GivesReading (F.left form.old) (F.left form.new) result }
    ensures left { TakesForm (F.left form.old) (F.left form.new) }
    ensures fault { result ≡ Reading.Fault → Rose (F.faults form.old) (F.faults form.new) }
{
    let mut bytes = Bytes::new(alloc);
    let mut buffer = [0u8; 4096];
    while bytes.len() <= FORM_LIMIT {
        let room = (FORM_LIMIT + 1 - bytes.len()).min(buffer.len());
        match form.read(&mut buffer[..room]) {
            Ok(0) => break,
            Ok(count) => {
                if bytes.extend(&buffer[..count]).is_err() {
                    return Reading::Memory;
                }
            }
            Err(_) => return Reading::Fault,
        }
    }
    Reading::All(bytes)
}
