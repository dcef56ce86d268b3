//! Where bytes cannot be read as JSON.

ghost use Rattle.std.specs.Prelude.{◌≡◌, IfOk};
ghost use Rattle.xf_form_explain.specs.Unread.{IsUnreadIn, width_in};

use crate::detail::Detail;
use serde_json::{Category, Value};
use std::alloc::{AllocError, Global};

/// The line and the column from which on the bytes are no JSON.
pub fn unread(alloc: Global, bytes: &[u8]) -> Result<Detail, AllocError>
    ensures { IfOk result (IsUnreadIn bytes.now) }
{
    match Value::from_slice(alloc, bytes) {
        Ok(_) => Ok(Detail::Nothing),
        Err(error) => match error.classify() {
            Category::Memory => Err(AllocError),
            Category::Eof => Ok(placed(bytes, error.line(), error.column(), true)),
            _ => Ok(placed(bytes, error.line(), error.column(), false)),
        },
    }
}

// A place that is in the bytes; one that is not is not told.
fn placed(bytes: &[u8], line: usize, column: usize, is_early: bool) -> Detail
    ensures { IsUnreadIn bytes.now result }
{
    match width_of(bytes, line) {
        Some(width) => {
            if column.saturating_sub(1) <= width {
                return Detail::Unread(line, column, is_early);
            }
            Detail::Nothing
        }
        None => Detail::Nothing,
    }
}

// How many bytes the line has, where there is one.
fn width_of(bytes: &[u8], line: usize) -> Option<usize>
    ensures { result ≡ width_in 1 0 line bytes.now }
{
    let mut at = 1;
    let mut width = 0;
    for byte in bytes {
        if *byte == b'\n' {
            if at == line {
                return Some(width);
            }
            at += 1;
            width = 0;
        } else {
            width += 1;
        }
    }
    if at == line {
        return Some(width);
    }
    None
}
