//! Texts by their characters.

ghost use Rattle.std.specs.Prelude.{◌≡◌, take, drop, chars, encode_utf8_all};

use xf_types::split_first;

/// What follows so many characters.
pub fn past(text: &str, count: usize) -> &str
    ensures value { result.now ≡ encode_utf8_all (drop count (chars text.now)) }
    ensures left { chars result.now ≡ drop count (chars text.now) }
{
    let mut rest = text;
    let mut left = count;
    while left > 0 {
        match split_first(rest) {
            Some((_, after)) => {
                rest = after;
                left -= 1;
            }
            None => break,
        }
    }
    rest
}

/// The first so many characters.
pub fn front(text: &str, count: usize) -> &str
    ensures { result.now ≡ encode_utf8_all (take count (chars text.now)) }
{
    let rest = past(text, count);
    &text[..text.len() - rest.len()]
}
