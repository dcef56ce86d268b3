//! White space and characters of texts.

ghost use Rattle.std.specs.Prelude.{◌≡◌, ◌<◌, [], ◌∷◌, ◌++◌, length, chars, string_bytes, encode_utf8, encode_utf8_all, if◌then◌else◌, IfOk, OnOk, MatchOption};
ghost use Rattle.xf_num.specs.Written.{is_space};
ghost use Rattle.xf_types.specs.Spaces.{normalized};

use std::alloc::{AllocError, Global};

/// The words of a text with one space between two of them.
pub fn normalized(alloc: Global, text: &str) -> Result<String, AllocError>
    ensures { IfOk result (λ made. string_bytes made ≡ normalized text.now) }
{
    let mut made = String::with_capacity(alloc, text.len())?;
    let mut left = text;
    let mut space_due = false;
    while let Some((c, rest)) = split_first(left) {
        left = rest;
        if is_space(c) {
            space_due = !made.is_empty();
            continue;
        }
        push(&mut made, space_due, c)?;
        space_due = false;
    }
    Ok(made)
}

/// Appends a character, behind a space where one is due.
fn push(made: &mut String, space_due: bool, c: char) -> Result<(), AllocError>
    ensures { OnOk result (string_bytes made.new
        ≡ string_bytes made.old ++ (if space_due then 32 ∷ encode_utf8 c else encode_utf8 c)) }
{
    if space_due {
        made.push(' ')?;
    }
    made.push(c)
}

/// Whether a character is white space.
pub fn is_space(c: char) -> bool
    ensures { result ≡ is_space c }
{
    c == ' ' || c == '\t' || c == '\n' || c == '\r'
}

/// The first character, and what follows it.
pub fn split_first(text: &str) -> Option<(char, &str)>
    ensures { MatchOption result ((chars text.now ≡ []) × (text.now ≡ []))
        (λ (c, rest). (chars text.now ≡ c ∷ chars rest.now) × (length rest.now < length text.now)
        × (encode_utf8_all (chars rest.now) ≡ rest.now)) }
{
    let mut chars = text.chars();
    match chars.next() {
        Some(c) => Some((c, chars.as_str())),
        None => None,
    }
}

/// How many characters there are.
pub fn char_count(text: &str) -> usize
    ensures { result ≡ length (chars text.now) }
{
    text.chars().count()
}
