//! The months and the seconds that durations stand for.

ghost use Rattle.std.specs.Prelude.{◌≡◌, ◌<◌, ◌+◌, ◌*◌, ◌^◌, min};
ghost use Rattle.xf_num.specs.Number.{size_limit, scale, in_range};
ghost use Rattle.xf_types.specs.Numerals.{signed_size};
ghost use Rattle.xf_dates.specs.Durations.{part_value, months_units, seconds_units, duration_in, duration};

use crate::decimals::{decimal_units, decimals_at};
use xf_num::{Decimals, Num, after_digits, digits_onto, trimmed};
use xf_types::{begins_with, is_duration, past_first, past_minus, past_part, past_parts};

/// The months and the seconds of a duration, each NaN where it is out of range; none where a text is no duration.
pub fn duration(text: &str, decimals: Decimals) -> Option<(Num, Num)>
    ensures { result ≡ duration decimals text.now }
{
    duration_in(trimmed(text.as_bytes()), decimals)
}

/// The same, of a text without white space at its ends.
fn duration_in(text: &[u8], decimals: Decimals) -> Option<(Num, Num)>
    ensures { result ≡ duration_in decimals text.now }
{
    if !is_duration(text) {
        return None;
    }
    let minus = begins_with(b'-', text);
    let parts = past_first(past_minus(text));
    Some((
        months(minus, parts, decimals),
        seconds(minus, parts, decimals),
    ))
}

/// The number that the digits before a designator write, at most 10^18, and 0 where there is no such part.
fn part_value(designator: u8, text: &[u8]) -> u64
    ensures { result ≡ min (part_value designator text.now) size_limit }
{
    if !begins_with(designator, after_digits(text)) {
        return 0;
    }
    digits_onto(0, text).0
}

/// The months of the years and months of a duration.
fn months(minus: bool, parts: &[u8], decimals: Decimals) -> Num
    ensures { result ≡ in_range (signed_size minus (months_units decimals parts.now)) }
{
    let years = part_value(b'Y', parts);
    let months = part_value(b'M', past_part(b'Y', parts));
    with_sign(
        minus,
        12 * u128::from(years) + u128::from(months),
        0,
        decimals,
    )
}

/// The seconds of the days and the time of a duration.
fn seconds(minus: bool, parts: &[u8], decimals: Decimals) -> Num
    ensures { result ≡ in_range (signed_size minus (seconds_units decimals parts.now)) }
{
    let days = part_value(b'D', past_parts(b"YM", parts));
    let time = past_first(past_parts(b"YMD", parts));
    let hours = part_value(b'H', time);
    let minutes = part_value(b'M', past_part(b'H', time));
    let last = past_parts(b"HM", time);
    let (whole, _) = digits_onto(0, last);
    let total = 86_400 * u128::from(days)
        + 3_600 * u128::from(hours)
        + 60 * u128::from(minutes)
        + u128::from(whole);
    let units = decimal_units(decimals_at(after_digits(last)), decimals);
    with_sign(minus, total, units, decimals)
}

/// So many wholes and so many units of the last decimal, with their sign, as a number.
fn with_sign(minus: bool, whole: u128, units: u64, decimals: Decimals) -> Num
    requires whole { whole < 2 ^ 90 }
    requires units { units < size_limit }
    ensures { result ≡ in_range (signed_size minus (whole * scale decimals + units)) }
{
    let size = (whole * u128::from(decimals.units_in_one()) + u128::from(units)) as i128;
    Num::of_units(if minus { -size } else { size })
}
