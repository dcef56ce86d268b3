//! Decimals by their digits, whatever their size.

ghost use Rattle.std.specs.Prelude.{◌≡◌, ◌+◌, ◌≤◌, length, option_map};
ghost use Rattle.xf_num.specs.Written.{leading_digits};
ghost use Rattle.xf_schema.specs.Decimals as decimals;
ghost use Rattle.xf_schema.specs.Seen.{seen_decimal};

use xf_num::{after_digits, digits_onto, trimmed};
use xf_types::{BuiltIn, SimpleType, meets, past_first};

/// A decimal by its digits: whole ones without zeros at the front, those of the fraction without zeros at the end. A zero has no sign.
#[derive(Clone, Copy, Debug)]
pub(crate) struct Decimal<'a> {
    pub minus: bool,
    pub whole: &'a [u8],
    pub fraction: &'a [u8],
}

/// A text as a decimal, if it is one.
pub(crate) fn decimal_of(text: &str) -> Option<Decimal<'_>>
    ensures { option_map seen_decimal result ≡ decimals.decimal_of text.now }
{
    if !is_decimal(text) {
        return None;
    }
    Some(digits_of(trimmed(text.as_bytes())))
}

/// Whether a text is a decimal.
pub(crate) fn is_decimal(text: &str) -> bool
    ensures { result ≡ decimals.is_decimal_text text.now }
{
    let decimal = SimpleType {
        kind: BuiltIn::Decimal,
        may_be_empty: false,
    };
    meets(&decimal, text)
}

/// What an optional sign, and digits with an optional point, write.
fn digits_of(text: &[u8]) -> Decimal<'_>
    ensures { seen_decimal result ≡ decimals.digits_of text.now }
{
    let digits = without_sign(text);
    let whole = without_first_zeros(leading_digits(digits));
    let fraction = without_last_zeros(past_first(after_digits(digits)));
    Decimal {
        minus: has_minus(text) && !(whole.is_empty() && fraction.is_empty()),
        whole,
        fraction,
    }
}

fn has_minus(text: &[u8]) -> bool
    ensures { result ≡ decimals.has_minus text.now }
{
    match text {
        [c, ..] => *c == b'-',
        _ => false,
    }
}

fn without_sign(text: &[u8]) -> &[u8]
    ensures { result.now ≡ decimals.without_sign text.now }
{
    let [c, rest @ ..] = text else {
        return text;
    };
    if *c == b'+' || *c == b'-' {
        return rest;
    }
    text
}

/// The digits that a text begins with.
fn leading_digits(text: &[u8]) -> &[u8]
    ensures { result.now ≡ leading_digits text.now }
{
    let (_, count) = digits_onto(0, text);
    &text[..count]
}

fn without_first_zeros(digits: &[u8]) -> &[u8]
    ensures { result.now ≡ decimals.without_first_zeros digits.now }
{
    let mut rest = digits;
    while let [first, after @ ..] = rest {
        if *first != b'0' {
            break;
        }
        rest = after;
    }
    rest
}

fn without_last_zeros(digits: &[u8]) -> &[u8]
    ensures { result.now ≡ decimals.without_last_zeros digits.now }
{
    let mut rest = digits;
    while let [before @ .., last] = rest {
        if *last != b'0' {
            break;
        }
        rest = before;
    }
    rest
}

// ---- order

/// Whether digits that stand at the same places come before others: the first that differ decide.
fn is_before(first: &[u8], second: &[u8]) -> bool
    ensures { result ≡ decimals.is_before first.now second.now }
{
    let mut left = first;
    let mut right = second;
    while !left.is_empty() {
        if right.is_empty() {
            return false;
        }
        if left[0] != right[0] {
            return left[0] < right[0];
        }
        left = &left[1..];
        right = &right[1..];
    }
    !right.is_empty()
}

fn is_smaller_whole(first: &[u8], second: &[u8]) -> bool
    ensures { result ≡ decimals.is_smaller_whole first.now second.now }
{
    first.len() < second.len() || (first.len() == second.len() && is_before(first, second))
}

/// Whether one is smaller than the other, without their signs.
fn is_smaller(x: &Decimal<'_>, y: &Decimal<'_>) -> bool
    ensures { result ≡ decimals.is_smaller (seen_decimal x.now) (seen_decimal y.now) }
{
    is_smaller_whole(x.whole, y.whole) || (x.whole == y.whole && is_before(x.fraction, y.fraction))
}

/// Whether one is less than the other.
pub(crate) fn is_less(x: &Decimal<'_>, y: &Decimal<'_>) -> bool
    ensures { result ≡ decimals.is_less (seen_decimal x.now) (seen_decimal y.now) }
{
    match (x.minus, y.minus) {
        (true, true) => is_smaller(y, x),
        (true, false) => true,
        (false, true) => false,
        (false, false) => is_smaller(x, y),
    }
}

/// Whether both are the same number.
pub(crate) fn is_same(x: &Decimal<'_>, y: &Decimal<'_>) -> bool
    ensures { result ≡ decimals.is_same (seen_decimal x.now) (seen_decimal y.now) }
{
    x.minus == y.minus && x.whole == y.whole && x.fraction == y.fraction
}
