//! Strings, numbers and ids as they are written.
ghost use Rattle.std.specs.Prelude.{◌≡◌, ◌++◌, OnOk, decimal, string_bytes};
ghost use Rattle.xf_def_machine.specs.NoteLines.{quoted};

use itoa::Buffer;
use serde_json::Value;
use std::alloc::{AllocError, Global};

/// Appends a text as a JSON string (RFC 8259, section 7).
pub fn push_quoted(alloc: Global, text: &mut String, value: &str) -> Result<(), AllocError>
    ensures { OnOk result (string_bytes text.new ≡ string_bytes text.old ++ quoted value.now) }
{
    push_string(alloc, text, String::from_str(alloc, value)?)
}

/// Appends a string as a JSON string.
pub fn push_string(alloc: Global, text: &mut String, value: String) -> Result<(), AllocError>
    ensures { OnOk result (string_bytes text.new ≡ string_bytes text.old ++ quoted (string_bytes value)) }
{
    let quoted = Value::String(value).to_string(alloc)?;
    text.push_str(quoted.as_str())
}

/// Appends a number in decimal digits.
pub fn push_number(text: &mut String, number: u64) -> Result<(), AllocError>
    ensures { OnOk result (string_bytes text.new ≡ string_bytes text.old ++ decimal number) }
{
    let mut buffer = Buffer::new();
    text.push_str(buffer.format(number))
}
