//! The days and seconds that dates and dateTimes stand for.

ghost use Rattle.std.specs.Prelude.{◌≡◌, ◌<◌, ◌^◌, pos, true, unsigned_abs};
ghost use Rattle.jiff_core.specs.Calendar.{IsEpochDay};
ghost use Rattle.xf_types.specs.Times.{is_date_alone, is_date_time};
ghost use Rattle.xf_dates.specs.Days.{day_at, clock_at, ahead, second_at, day_in, day_of};

use crate::decimals::past_decimals;
use jiff_core::civil::Date;
use xf_num::trimmed;
use xf_types::{begins_with, cut, is_date, is_date_time, past_first, two_digits, year_of};

/// The seconds in a day.
pub const DAY: i64 = 86_400;

/// The days from 1970-01-01 to a date, or to the day that a dateTime has in UTC; none where a text is neither.
pub fn day_of(text: &str) -> Option<i64>
    ensures { result ≡ day_of text.now }
{
    day_in(trimmed(text.as_bytes()))
}

/// The same, of a text without white space at its ends.
fn day_in(text: &[u8]) -> Option<i64>
    ensures { result ≡ day_in text.now }
{
    if is_date(text) {
        return Some(day_at(cut(text, 10).0));
    }
    if is_date_time(text) {
        return Some(second_at(text).div_euclid(DAY));
    }
    None
}

/// The day number of a date that stands alone.
fn day_at(date: &[u8]) -> i64
    requires { is_date_alone date.now ≡ true }
    ensures value { result ≡ day_at date.now }
    ensures range { IsEpochDay result }
{
    let date = Date {
        year: year_of(date) as i16,
        month: two_digits(date, 5) as u8,
        day: two_digits(date, 8) as u8,
    };
    i64::from(date.to_unix_epoch_day())
}

/// The seconds from midnight to the time that a text begins with.
fn clock_at(time: &[u8]) -> i64
    ensures value { result ≡ pos (clock_at time.now) }
    ensures size { unsigned_abs result < 2 ^ 45 }
{
    3_600 * i64::from(two_digits(time, 0))
        + 60 * i64::from(two_digits(time, 3))
        + i64::from(two_digits(time, 6))
}

/// By how many seconds the clocks of a zone are ahead of UTC: none for `Z` and where no zone is written.
fn ahead(zone: &[u8]) -> i64
    ensures value { result ≡ ahead zone.now }
    ensures size { unsigned_abs result < 2 ^ 45 }
{
    let offset = past_first(zone);
    let seconds = 3_600 * i64::from(two_digits(offset, 0)) + 60 * i64::from(two_digits(offset, 3));
    if begins_with(b'+', zone) {
        return seconds;
    }
    if begins_with(b'-', zone) {
        return -seconds;
    }
    0
}

/// The whole seconds from 1970-01-01T00:00:00Z to a dateTime.
pub fn second_at(text: &[u8]) -> i64
    requires { is_date_time text.now ≡ true }
    ensures value { result ≡ second_at text.now }
    ensures size { unsigned_abs result < 2 ^ 50 }
{
    let day = day_at(cut(text, 10).0);
    let clock = clock_at(cut(text, 11).1);
    let zone = past_decimals(cut(text, 19).1);
    day * DAY + clock - ahead(zone)
}
