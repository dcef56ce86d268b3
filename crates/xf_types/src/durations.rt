//! Durations.

ghost use Rattle.std.specs.Prelude.{◌≡◌};
ghost use Rattle.xf_types.specs.Behind.{begins_with, past_first, past_part, past_fraction, past_seconds, past_parts, is_time_parts, is_rest_of_parts, is_parts, past_minus, is_passed};
ghost use Rattle.xf_types.specs.Durations.{is_duration, is_day_time_duration, is_year_month_duration};

use crate::shapes::starts_with_digit;
use xf_num::after_digits;

/// Whether a text begins with this byte.
pub fn begins_with(byte: u8, text: &[u8]) -> bool
    ensures { result ≡ begins_with byte text.now }
{
    match text {
        [c, ..] => *c == byte,
        _ => false,
    }
}

/// What follows the first byte.
pub fn past_first(text: &[u8]) -> &[u8]
    ensures { result.now ≡ past_first text.now }
{
    match text {
        [_, rest @ ..] => rest,
        _ => text,
    }
}

/// What follows digits with this designator, and otherwise the text.
pub fn past_part(designator: u8, text: &[u8]) -> &[u8]
    ensures { result.now ≡ past_part designator text.now }
{
    if !starts_with_digit(text) {
        return text;
    }
    let rest = after_digits(text);
    if !begins_with(designator, rest) {
        return text;
    }
    past_first(rest)
}

fn past_fraction(text: &[u8]) -> &[u8]
    ensures { result.now ≡ past_fraction text.now }
{
    if !begins_with(b'.', text) {
        return text;
    }
    let digits = past_first(text);
    if !starts_with_digit(digits) {
        return text;
    }
    after_digits(digits)
}

fn past_seconds(text: &[u8]) -> &[u8]
    ensures { result.now ≡ past_seconds text.now }
{
    if !starts_with_digit(text) {
        return text;
    }
    let rest = past_fraction(after_digits(text));
    if !begins_with(b'S', rest) {
        return text;
    }
    past_first(rest)
}

/// What follows parts in this order, each of which may be missing.
pub fn past_parts<'a>(designators: &[u8], text: &'a [u8]) -> &'a [u8]
    ensures { result.now ≡ past_parts designators.now text.now }
{
    let mut left = designators;
    let mut rest = text;
    while let [designator, after @ ..] = left {
        rest = past_part(*designator, rest);
        left = after;
    }
    rest
}

fn is_time_parts(text: &[u8]) -> bool
    ensures { result ≡ is_time_parts text.now }
{
    !text.is_empty() && past_seconds(past_parts(b"HM", text)).is_empty()
}

fn is_rest_of_parts(times: bool, text: &[u8]) -> bool
    ensures { result ≡ is_rest_of_parts times text.now }
{
    match text {
        [c, rest @ ..] => times && *c == b'T' && is_time_parts(rest),
        _ => true,
    }
}

fn is_parts(dates: &[u8], times: bool, text: &[u8]) -> bool
    ensures { result ≡ is_parts dates.now times text.now }
{
    !text.is_empty() && is_rest_of_parts(times, past_parts(dates, text))
}

/// What follows a minus, and otherwise the text.
pub fn past_minus(text: &[u8]) -> &[u8]
    ensures { result.now ≡ past_minus text.now }
{
    if begins_with(b'-', text) {
        past_first(text)
    } else {
        text
    }
}

/// Whether nothing is left behind an optional minus, `P` and parts: these of days, and those of a time where they are allowed.
fn is_passed(dates: &[u8], times: bool, text: &[u8]) -> bool
    ensures { result ≡ is_passed dates.now times text.now }
{
    let unsigned = past_minus(text);
    begins_with(b'P', unsigned) && is_parts(dates, times, past_first(unsigned))
}

/// Whether a text is a duration.
pub fn is_duration(text: &[u8]) -> bool
    ensures { result ≡ is_duration text.now }
{
    is_passed(b"YMD", true, text)
}

/// Whether a text is a duration of days and parts of a time.
pub fn is_day_time_duration(text: &[u8]) -> bool
    ensures { result ≡ is_day_time_duration text.now }
{
    is_passed(b"D", true, text)
}

/// Whether a text is a duration of years and months.
pub fn is_year_month_duration(text: &[u8]) -> bool
    ensures { result ≡ is_year_month_duration text.now }
{
    is_passed(b"YM", false, text)
}
