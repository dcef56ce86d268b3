//! Shapes of texts whose places are fixed.

ghost use Rattle.std.specs.Prelude.{◌≡◌, ◌<◌, ◌^◌, take, drop, slice_index};
ghost use Rattle.xf_types.specs.Shapes.{fits_place, fits, two_digits, starts_with_digit, is_hex_digit, is_hex, has_space};

use xf_num::{is_digit, is_space};

/// Whether a byte stands rightly at a place of a shape.
fn fits_place(place: u8, c: u8) -> bool
    ensures { result ≡ fits_place place c }
{
    if place == b'0' {
        is_digit(c)
    } else {
        c == place
    }
}

/// Whether a text has a shape, in which a 0 stands for any digit.
pub fn fits(shape: &[u8], text: &[u8]) -> bool
    ensures { result ≡ fits shape.now text.now }
{
    let mut places = shape;
    let mut rest = text;
    while let [place, after_place @ ..] = places {
        let [c, after @ ..] = rest else {
            return false;
        };
        if !fits_place(*place, *c) {
            return false;
        }
        places = after_place;
        rest = after;
    }
    rest.is_empty()
}

/// The byte at a place, 0 past the end.
fn byte_at(text: &[u8], at: usize) -> u8
    ensures { result ≡ slice_index text.now at }
{
    if at < text.len() { text[at] } else { 0 }
}

/// The number that the two digits at a place write.
pub fn two_digits(text: &[u8], at: usize) -> u32
    requires { at < 2 ^ 32 }
    ensures { result ≡ two_digits text.now at }
{
    let tens = u32::from(byte_at(text, at).saturating_sub(b'0'));
    10 * tens + u32::from(byte_at(text, at + 1).saturating_sub(b'0'))
}

/// The first bytes of a text, and the rest.
pub fn cut(text: &[u8], at: usize) -> (&[u8], &[u8])
    ensures front { result.0.now ≡ take at text.now }
    ensures rest { result.1.now ≡ drop at text.now }
{
    text.split_at(at.min(text.len()))
}

/// Whether a text begins with a digit.
pub fn starts_with_digit(text: &[u8]) -> bool
    ensures { result ≡ starts_with_digit text.now }
{
    match text {
        [c, ..] => is_digit(*c),
        _ => false,
    }
}

fn is_hex_digit(c: u8) -> bool
    ensures { result ≡ is_hex_digit c }
{
    is_digit(c) || (b'A' <= c && c <= b'F') || (b'a' <= c && c <= b'f')
}

/// Whether a text is hexadecimal digits, two for each octet.
pub fn is_hex(text: &[u8]) -> bool
    ensures { result ≡ is_hex text.now }
{
    let mut rest = text;
    while let [a, b, after @ ..] = rest {
        if !is_hex_digit(*a) || !is_hex_digit(*b) {
            return false;
        }
        rest = after;
    }
    rest.is_empty()
}

/// Whether there is white space in a text.
pub fn has_space(text: &[u8]) -> bool
    ensures { result ≡ has_space text.now }
{
    for c in text {
        if is_space(*c) {
            return true;
        }
    }
    false
}
