//! The lines of an expression, with a caret below a place in it.

ghost use Rattle.std.specs.Prelude.{◌≡◌, ◌++◌, ◌≤◌, codes, count_by, length, min, replicate, string_bytes, take, OnOk};
ghost use Rattle.std.specs.List.{list_all};
ghost use Rattle.xf_form_explain.specs.Places as places;

use std::alloc::AllocError;
use xf_base::limits::EXPRESSION_LIMIT;

/// How many characters of a text stand before the place.
pub fn characters_before(text: &[u8], place: u32) -> usize
    ensures value { result ≡ places.characters_before text.now place }
    ensures within { result ≤ length text.now }
{
    let front = &text[..text.len().min(place as usize)];
    front.iter().filter(|byte| begins_character(**byte)).count()
}

fn begins_character(byte: u8) -> bool
    ensures { result ≡ places.begins_character byte }
{
    byte < 128 || byte >= 192
}

/// Shows the expression and the place in it. One that is too long, or would not stand in one line, is not shown.
pub fn push_expression(text: &mut String, expression: &str, place: u32) -> Result<(), AllocError>
    ensures { OnOk result (string_bytes text.new ≡ string_bytes text.old ++ places.expression_lines expression.now place) }
{
    let bytes = expression.as_bytes();
    if !is_shown(bytes) {
        return Ok(());
    }
    text.push_str("    ")?;
    text.push_str(expression)?;
    text.push_str("\n    ")?;
    push_blanks(text, characters_before(bytes, place))?;
    text.push_str("^\n")
}

fn is_shown(bytes: &[u8]) -> bool
    ensures { result ≡ places.is_shown bytes.now }
{
    bytes.len() <= EXPRESSION_LIMIT && are_visible(bytes)
}

fn are_visible(bytes: &[u8]) -> bool
    ensures { result ≡ list_all places.is_visible bytes.now }
{
    bytes.iter().all(|byte| *byte >= 32 && *byte != 127)
}

fn push_blanks(text: &mut String, count: usize) -> Result<(), AllocError>
    ensures { OnOk result (string_bytes text.new ≡ string_bytes text.old ++ replicate count 32) }
{
    for _turn in 0..count {
        text.push_str(" ")?;
    }
    Ok(())
}
