//! The texts of days and of seconds.

ghost use Rattle.std.specs.Prelude.{◌≡◌, IfOk, option_map};
ghost use Rattle.xf_dates.specs.Printed.{nearest_whole, parts_of, civil_date, date_of, moment_of};

use crate::days::DAY;
use jiff_core::civil::{Date, DateTime, Time};
use jiff_fmt::temporal::DateTimePrinter;
use std::alloc::{AllocError, Global};
use xf_name::Word;
use xf_num::{Decimals, Num};

/// The first year that a date is written in.
const FIRST_YEAR: i16 = 1;

/// The date that is so many days, rounded, after 1970-01-01; empty for NaN and outside the years 0001 to 9999.
pub fn date_of(alloc: Global, day: Num, decimals: Decimals) -> Result<Word, AllocError>
    ensures { IfOk result (λ word. word ≡ date_of decimals day) }
{
    let Some(whole) = nearest_whole(day, decimals) else {
        return Ok(Word::new(alloc));
    };
    let Some(date) = civil_date(whole) else {
        return Ok(Word::new(alloc));
    };
    Word::from_str(alloc, DateTimePrinter::new().date_text(date).as_str())
}

/// The dateTime in UTC that is so many seconds, rounded, after 1970-01-01T00:00:00Z; empty for NaN and outside the
/// years 0001 to 9999.
pub fn moment_of(alloc: Global, seconds: Num, decimals: Decimals) -> Result<Word, AllocError>
    ensures { IfOk result (λ word. word ≡ moment_of decimals seconds) }
{
    let Some(whole) = nearest_whole(seconds, decimals) else {
        return Ok(Word::new(alloc));
    };
    let Some(date) = civil_date(whole.div_euclid(DAY)) else {
        return Ok(Word::new(alloc));
    };
    let time = Time::from_second(whole.rem_euclid(DAY) as u32, 0);
    let clock = DateTimePrinter::new().datetime_text(DateTime { date, time });
    let mut text = Word::from_str(alloc, clock.as_str())?;
    text.push_str("Z")?;
    Ok(text)
}

/// The whole number nearest to a number, of two the greater; none for NaN.
fn nearest_whole(number: Num, decimals: Decimals) -> Option<i64>
    ensures { result ≡ nearest_whole decimals number }
{
    match number.round(decimals).units() {
        Some(units) => Some(units.div_euclid(i128::from(decimals.units_in_one())) as i64),
        None => None,
    }
}

/// The date with this day number, in the years 0001 to 9999.
fn civil_date(day: i64) -> Option<Date>
    ensures { option_map parts_of result ≡ civil_date day }
{
    match Date::from_unix_epoch_day(day) {
        Ok(date) => {
            if date.year < FIRST_YEAR {
                return None;
            }
            Some(date)
        }
        Err(_) => None,
    }
}
