//! Decimals and integers.

ghost use Rattle.std.specs.Prelude.{◌≡◌, ◌&&◌, ◌≤◌, ◌^◌, min, true};
ghost use Rattle.std.specs.Str.Parse.{digits_value};
ghost use Rattle.xf_num.specs.Written.{is_empty, after_digits};
ghost use Rattle.xf_types.specs.Numerals.{has_minus, without_sign, is_decimal_rest, is_decimal, is_integer, signed_size, is_small, is_at_least, is_at_most, is_between};

use crate::shapes::starts_with_digit;
use xf_num::{after_digits, all_digits};

/// A size that stands for all that are as large: no bound of a type reaches it.
const TOO_LARGE: u128 = 1 << 64;

fn has_minus(text: &[u8]) -> bool
    ensures { result ≡ has_minus text.now }
{
    match text {
        [c, ..] => *c == b'-',
        _ => false,
    }
}

fn without_sign(text: &[u8]) -> &[u8]
    ensures { result.now ≡ without_sign text.now }
{
    let [c, rest @ ..] = text else {
        return text;
    };
    if *c == b'+' || *c == b'-' {
        return rest;
    }
    text
}

/// Whether a text may follow the first digits of a decimal.
fn is_decimal_rest(has_whole: bool, text: &[u8]) -> bool
    ensures { result ≡ is_decimal_rest has_whole text.now }
{
    let [c, decimals @ ..] = text else {
        return has_whole;
    };
    *c == b'.' && all_digits(decimals) && (has_whole || !decimals.is_empty())
}

pub fn is_decimal(text: &[u8]) -> bool
    ensures { result ≡ is_decimal text.now }
{
    let digits = without_sign(text);
    is_decimal_rest(starts_with_digit(digits), after_digits(digits))
}

fn is_integer(text: &[u8]) -> bool
    ensures { result ≡ is_integer text.now }
{
    let digits = without_sign(text);
    !digits.is_empty() && all_digits(digits)
}

/// The number that digits write, at most 2^64.
fn capped_size(digits: &[u8]) -> u128
    requires { is_empty (after_digits digits.now) ≡ true }
    ensures { result ≡ min (digits_value 10 digits.now) (2 ^ 64) }
{
    let mut size = 0;
    for c in digits {
        size = (size * 10 + u128::from(c.saturating_sub(b'0'))).min(TOO_LARGE);
    }
    size
}

fn with_sign(minus: bool, size: u128) -> i128
    requires { size ≤ 2 ^ 64 }
    ensures { result ≡ signed_size minus size }
{
    let value = size as i128;
    if minus { -value } else { value }
}

/// Whether a text is an integer from one bound to another, each of which has a size below 2^64.
pub fn is_between(least: Option<i128>, most: Option<i128>, text: &[u8]) -> bool
    requires least { is_small least ≡ true }
    requires most { is_small most ≡ true }
    ensures { result ≡ is_between least most text.now }
{
    if !is_integer(text) {
        return false;
    }
    let value = with_sign(has_minus(text), capped_size(without_sign(text)));
    is_in_bounds(least, most, value)
}

fn is_in_bounds(least: Option<i128>, most: Option<i128>, value: i128) -> bool
    ensures { result ≡ (is_at_least least value && is_at_most most value) }
{
    if let Some(bound) = least {
        if value < bound {
            return false;
        }
    }
    match most {
        Some(bound) => value <= bound,
        None => true,
    }
}
