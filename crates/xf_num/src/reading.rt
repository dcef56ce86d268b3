//! Reading numbers from text.

ghost use Rattle.std.specs.Prelude.{◌≡◌, ◌≤◌, ◌-◌, ◌*◌, min, pos, length, take, true};
ghost use Rattle.std.specs.Str.Parse.{digits_value_after};
ghost use Rattle.xf_num.specs.Number.{scale, size_limit, in_range};
ghost use Rattle.xf_num.specs.Written.{negated, read_at, with_sign_at, without_sign_at, from_parts, units_of, is_space, is_digit, is_empty, leading_digits, after_digits, without_leading, without_trailing};

use crate::number::Num;
use crate::scales::{Decimals, units_for};
use crate::text::{all_digits, is_digit, trimmed};

/// The size at which a number is out of range, in units.
const TOO_LARGE: u64 = 1_000_000_000_000_000_000;

impl Num {
    /// Reads a text as a number: NaN where it is none, or out of range. Decimals after the last that counts are dropped.
    pub fn read(text: &str, decimals: Decimals) -> Num
        ensures { result ≡ read_at decimals text.now }
    {
        with_sign(trimmed(text.as_bytes()), decimals)
    }

    /// The number with the other sign.
    fn negated(self) -> Num
        ensures { result ≡ negated self }
    {
        match self.units() {
            Some(units) => Num::of_units(-units),
            None => Num::nan(),
        }
    }
}

/// Reads an optional minus and the digits after it.
fn with_sign(text: &[u8], decimals: Decimals) -> Num
    ensures { result ≡ with_sign_at decimals text.now }
{
    match text {
        [b'-', rest @ ..] => without_sign(rest, decimals).negated(),
        _ => without_sign(text, decimals),
    }
}

/// Reads digits with an optional point.
fn without_sign(text: &[u8], decimals: Decimals) -> Num
    ensures { result ≡ without_sign_at decimals text.now }
{
    let (whole, count) = digits_onto(0, text);
    with_rest(whole, count != 0, &text[count..], decimals)
}

/// Reads what follows the digits before a point: nothing, or a point and digits.
fn with_rest(whole: u64, has_whole: bool, rest: &[u8], decimals: Decimals) -> Num
    requires { whole ≤ size_limit }
    ensures { result ≡ from_parts decimals whole has_whole rest.now }
{
    let [point, digits @ ..] = rest else {
        if !has_whole {
            return Num::nan();
        }
        return scaled(whole, decimals.count());
    };
    if *point != b'.' {
        return Num::nan();
    }
    if !all_digits(digits) {
        return Num::nan();
    }
    if !has_whole && digits.is_empty() {
        return Num::nan();
    }
    with_decimals(whole, digits, decimals)
}

/// The number of a size in whole units and the digits after its point.
pub fn with_decimals(whole: u64, digits: &[u8], decimals: Decimals) -> Num
    requires whole { whole ≤ size_limit }
    requires digits { is_empty (after_digits digits.now) ≡ true }
    ensures { result ≡ in_range (pos (units_of decimals whole digits.now)) }
{
    let most = decimals.count();
    if digits.len() < most as usize {
        let (size, _) = digits_onto(whole, digits);
        return scaled(size, most - digits.len() as u8);
    }
    let (size, _) = digits_onto(whole, &digits[..most as usize]);
    scaled(size, 0)
}

/// So many units of a coarser decimal, as a number; a size of 10^18 or more stands for all that are.
fn scaled(size: u64, missing: u8) -> Num
    requires { missing ≤ 9 }
    ensures { result ≡ in_range (pos (size * scale missing)) }
{
    Num::of_units(i128::from(size) * i128::from(units_for(missing)))
}

/// The number that the leading digits write after those of the start, at most 10^18, and how many they are.
pub fn digits_onto(start: u64, text: &[u8]) -> (u64, usize)
    requires { start ≤ size_limit }
    ensures size { result.0 ≡ min (digits_value_after 10 start (leading_digits text.now)) size_limit }
    ensures count { result.1 ≡ length (leading_digits text.now) }
    ensures within { result.1 ≤ length text.now }
{
    let mut size = start;
    let mut count = 0;
    while count < text.len() && is_digit(text[count]) {
        size = (size * 10 + u64::from(text[count] - b'0')).min(TOO_LARGE);
        count += 1;
    }
    (size, count)
}
