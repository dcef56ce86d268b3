//! The line for slots that hold no session of the form.

ghost use Rattle.std.specs.Prelude.{◌≡◌, ◌++◌, codes, decimal, string_bytes, IfOk};
ghost use Rattle.xf_cli_commands.specs.Statuses.{session_line, slot_name};

use crate::status::SessionFault;
use std::alloc::{AllocError, Global};
use xf_disk::Slot;

/// The line that tells why.
pub(crate) fn session_line(alloc: Global, fault: SessionFault) -> Result<String, AllocError>
    ensures { IfOk result (λ line. string_bytes line ≡ session_line fault) }
{
    match fault {
        SessionFault::OtherForm(at) => format!(in alloc; "session OtherForm {at}\n"),
        SessionFault::Damaged(slot, at) => damaged_line(alloc, slot_name(slot), at),
        SessionFault::NoSession => String::from_str(alloc, "session NoSession\n"),
    }
}

fn damaged_line(alloc: Global, slot: &str, at: u64) -> Result<String, AllocError>
    ensures { IfOk result (λ line. string_bytes line ≡ codes "session Damaged " ++ slot.now ++ codes " " ++ decimal at ++ codes "\n") }
{
    let mut line = String::from_str(alloc, "session Damaged ")?;
    line.push_str(slot)?;
    line.push_str(format!(in alloc; " {at}\n")?.as_str())?;
    Ok(line)
}

fn slot_name(slot: Slot) -> &'static str
    ensures { result.now ≡ slot_name slot }
{
    match slot {
        Slot::A => "A",
        Slot::B => "B",
    }
}
