//! The parts of written names.

ghost use Rattle.std.specs.Prelude.{◌≡◌, option_map};
ghost use Rattle.xf_name.specs.Part.{begins_part, continues_part, is_part, at_colon};

use unicode_ident::{is_xid_continue, is_xid_start};
use xf_base::limits::PART_LIMIT;

/// Whether the text is one part of a name: a prefix, or a local name.
pub fn is_part(text: &str) -> bool
    ensures { result ≡ is_part text.now }
{
    if text.len() > PART_LIMIT {
        return false;
    }
    let mut chars = text.chars();
    match chars.next() {
        Some(first) => begins_part(first) && chars.all(|c| continues_part(c)),
        None => false,
    }
}

/// Whether a character may begin a part of a name.
pub fn begins_part(c: char) -> bool
    ensures { result ≡ begins_part c }
{
    is_xid_start(c) || c == '_'
}

/// Whether a character may stand in a part of a name, behind its first one.
pub fn continues_part(c: char) -> bool
    ensures { result ≡ continues_part c }
{
    is_xid_continue(c) || c == '-' || c == '.'
}

/// What stands before and after the first colon of a written name.
pub fn at_colon(text: &str) -> Option<(&str, &str)>
    ensures { option_map (λ p. (p.0.now, p.1.now)) result ≡ at_colon text.now }
{
    text.split_once(':')
}
