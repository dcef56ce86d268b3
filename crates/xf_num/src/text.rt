//! White space at the ends of a text, and the digits that it begins with.

ghost use Rattle.std.specs.Prelude.{◌≡◌};
ghost use Rattle.xf_num.specs.Written.{is_space, is_digit, is_empty, after_digits, without_leading, without_trailing, trimmed};

/// Whether a byte is white space.
pub fn is_space(c: u8) -> bool
    ensures { result ≡ is_space c }
{
    c == b' ' || c == b'\t' || c == b'\n' || c == b'\r'
}

/// Whether a byte is a digit.
pub fn is_digit(c: u8) -> bool
    ensures { result ≡ is_digit c }
{
    b'0' <= c && c <= b'9'
}

/// The text without the white space at its ends.
pub fn trimmed(text: &[u8]) -> &[u8]
    ensures { result.now ≡ trimmed text.now }
{
    trimmed_end(trimmed_start(text))
}

/// The text without the white space that it begins with.
fn trimmed_start(text: &[u8]) -> &[u8]
    ensures { result.now ≡ without_leading text.now }
{
    let mut rest = text;
    while let [first, after @ ..] = rest {
        if !is_space(*first) {
            break;
        }
        rest = after;
    }
    rest
}

/// The text without the white space that it ends with.
fn trimmed_end(text: &[u8]) -> &[u8]
    ensures { result.now ≡ without_trailing text.now }
{
    let mut rest = text;
    while let [before @ .., last] = rest {
        if !is_space(*last) {
            break;
        }
        rest = before;
    }
    rest
}

/// Whether all of the text is digits.
pub fn all_digits(text: &[u8]) -> bool
    ensures { result ≡ is_empty (after_digits text.now) }
{
    for c in text {
        if !is_digit(*c) {
            return false;
        }
    }
    true
}

/// What follows the digits that a text begins with.
pub fn after_digits(text: &[u8]) -> &[u8]
    ensures { result.now ≡ after_digits text.now }
{
    let mut rest = text;
    while let [first, after @ ..] = rest {
        if !is_digit(*first) {
            break;
        }
        rest = after;
    }
    rest
}
