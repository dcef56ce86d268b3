//! Names as types.

ghost use Rattle.std.specs.Prelude.{◌≡◌, option_map};
ghost use Rattle.xf_name.specs.Part.{at_colon};
ghost use Rattle.xf_types.specs.Parts.{is_name_part, is_q_name, is_name};

use std::str;
use xf_name::is_part;

/// Whether bytes are one part of a name.
pub fn is_name_part(text: &[u8]) -> bool
    ensures { result ≡ is_name_part text.now }
{
    match str::from_utf8(text) {
        Ok(part) => is_part(part),
        Err(_) => false,
    }
}

/// What stands before and after the first colon.
fn at_colon(text: &[u8]) -> Option<(&[u8], &[u8])>
    ensures { option_map (λ p. (p.0.now, p.1.now)) result ≡ at_colon text.now }
{
    let mut at = 0;
    while at < text.len() {
        if text[at] == b':' {
            return Some((&text[..at], &text[at + 1..]));
        }
        at += 1;
    }
    None
}

/// Whether bytes are one part, or two joined by a colon.
pub fn is_q_name(text: &[u8]) -> bool
    ensures { result ≡ is_q_name text.now }
{
    match at_colon(text) {
        Some((before, after)) => is_name_part(before) && is_name_part(after),
        None => is_name_part(text),
    }
}

/// Whether bytes are parts joined by colons.
pub fn is_name(text: &[u8]) -> bool
    ensures { result ≡ is_name text.now }
{
    let mut rest = text;
    while let Some((before, after)) = at_colon(rest) {
        if !is_name_part(before) {
            return false;
        }
        rest = after;
    }
    is_name_part(rest)
}
