//! Dates and times.

ghost use Rattle.std.specs.Prelude.{◌≡◌, ◌≤◌};
ghost use Rattle.xf_types.specs.Times.{is_offset, is_zone, may_be_zone, is_month, is_day, year_of, is_year_alone, is_year_month, is_date_alone, is_month_alone, is_month_day, is_day_alone, is_clock, is_midnight, begins_with_zeros, is_after_seconds, is_clock_text, is_time, is_date, is_date_time, is_g_year, is_g_year_month, is_g_month, is_g_month_day, is_g_day};

use crate::shapes::{cut, fits, starts_with_digit, two_digits};
use jiff_core::civil::days_in_month;
use xf_num::{after_digits, is_digit};

/// A year in which each month has all its days.
const LEAP_YEAR: u32 = 2000;

fn is_offset(hours: u32, minutes: u32) -> bool
    ensures { result ≡ is_offset hours minutes }
{
    (hours <= 13 && minutes <= 59) || (hours == 14 && minutes == 0)
}

fn is_zone(text: &[u8]) -> bool
    ensures { result ≡ is_zone text.now }
{
    if text == b"Z".as_slice() {
        return true;
    }
    if fits(b"+00:00", text) {
        return is_offset(two_digits(text, 1), two_digits(text, 4));
    }
    fits(b"-00:00", text) && is_offset(two_digits(text, 1), two_digits(text, 4))
}

fn may_be_zone(text: &[u8]) -> bool
    ensures { result ≡ may_be_zone text.now }
{
    text.is_empty() || is_zone(text)
}

fn is_month(month: u32) -> bool
    ensures { result ≡ is_month month }
{
    1 <= month && month <= 12
}

fn is_day(year: u32, month: u32, day: u32) -> bool
    requires { year ≤ 9999 }
    ensures { result ≡ is_day year month day }
{
    is_month(month) && 1 <= day && day <= u32::from(days_in_month(year as i16, month as u8))
}

/// The year that the first four digits write.
pub fn year_of(text: &[u8]) -> u32
    ensures { result ≡ year_of text.now }
{
    100 * two_digits(text, 0) + two_digits(text, 2)
}

fn is_year_alone(text: &[u8]) -> bool
    ensures { result ≡ is_year_alone text.now }
{
    fits(b"0000", text) && 1 <= year_of(text)
}

fn is_year_month(text: &[u8]) -> bool
    ensures { result ≡ is_year_month text.now }
{
    fits(b"0000-00", text) && 1 <= year_of(text) && is_month(two_digits(text, 5))
}

fn is_date_alone(text: &[u8]) -> bool
    ensures { result ≡ is_date_alone text.now }
{
    fits(b"0000-00-00", text)
        && 1 <= year_of(text)
        && is_day(year_of(text), two_digits(text, 5), two_digits(text, 8))
}

fn is_month_alone(text: &[u8]) -> bool
    ensures { result ≡ is_month_alone text.now }
{
    fits(b"--00", text) && is_month(two_digits(text, 2))
}

fn is_month_day(text: &[u8]) -> bool
    ensures { result ≡ is_month_day text.now }
{
    fits(b"--00-00", text) && is_day(LEAP_YEAR, two_digits(text, 2), two_digits(text, 5))
}

fn is_day_alone(text: &[u8]) -> bool
    ensures { result ≡ is_day_alone text.now }
{
    fits(b"---00", text) && 1 <= two_digits(text, 3) && two_digits(text, 3) <= 31
}

fn is_clock(hour: u32, minute: u32, second: u32) -> bool
    ensures { result ≡ is_clock hour minute second }
{
    hour <= 23 && minute <= 59 && second <= 59
}

fn is_midnight(hour: u32, minute: u32, second: u32) -> bool
    ensures { result ≡ is_midnight hour minute second }
{
    hour == 24 && minute == 0 && second == 0
}

/// Whether the digits that the text begins with are zeros.
fn begins_with_zeros(text: &[u8]) -> bool
    ensures { result ≡ begins_with_zeros text.now }
{
    let mut rest = text;
    while let [c, after @ ..] = rest {
        if !is_digit(*c) {
            return true;
        }
        if *c != b'0' {
            return false;
        }
        rest = after;
    }
    true
}

/// Whether a text may follow the seconds: an optional point with digits and an optional zone.
fn is_after_seconds(ends: bool, text: &[u8]) -> bool
    ensures { result ≡ is_after_seconds ends text.now }
{
    let [c, after @ ..] = text else {
        return true;
    };
    if *c != b'.' {
        return is_zone(text);
    }
    starts_with_digit(after)
        && (!ends || begins_with_zeros(after))
        && may_be_zone(after_digits(after))
}

fn is_clock_text(text: &[u8]) -> bool
    ensures { result ≡ is_clock_text text.now }
{
    if !fits(b"00:00:00", text) {
        return false;
    }
    let hour = two_digits(text, 0);
    let minute = two_digits(text, 3);
    let second = two_digits(text, 6);
    is_clock(hour, minute, second) || is_midnight(hour, minute, second)
}

pub fn is_time(text: &[u8]) -> bool
    ensures { result ≡ is_time text.now }
{
    let (clock, rest) = cut(text, 8);
    is_clock_text(clock) && is_after_seconds(two_digits(text, 0) == 24, rest)
}

/// Whether a text is a date with an optional zone.
pub fn is_date(text: &[u8]) -> bool
    ensures { result ≡ is_date text.now }
{
    let (date, rest) = cut(text, 10);
    is_date_alone(date) && may_be_zone(rest)
}

/// Whether a text is a date, `T` and a time with an optional zone.
pub fn is_date_time(text: &[u8]) -> bool
    ensures { result ≡ is_date_time text.now }
{
    let (date, _) = cut(text, 10);
    let (letter, _) = cut(cut(text, 10).1, 1);
    let (_, time) = cut(text, 11);
    is_date_alone(date) && letter == b"T".as_slice() && is_time(time)
}

pub fn is_g_year(text: &[u8]) -> bool
    ensures { result ≡ is_g_year text.now }
{
    let (year, rest) = cut(text, 4);
    is_year_alone(year) && may_be_zone(rest)
}

pub fn is_g_year_month(text: &[u8]) -> bool
    ensures { result ≡ is_g_year_month text.now }
{
    let (month, rest) = cut(text, 7);
    is_year_month(month) && may_be_zone(rest)
}

pub fn is_g_month(text: &[u8]) -> bool
    ensures { result ≡ is_g_month text.now }
{
    let (month, rest) = cut(text, 4);
    is_month_alone(month) && may_be_zone(rest)
}

pub fn is_g_month_day(text: &[u8]) -> bool
    ensures { result ≡ is_g_month_day text.now }
{
    let (day, rest) = cut(text, 7);
    is_month_day(day) && may_be_zone(rest)
}

pub fn is_g_day(text: &[u8]) -> bool
    ensures { result ≡ is_g_day text.now }
{
    let (day, rest) = cut(text, 5);
    is_day_alone(day) && may_be_zone(rest)
}
