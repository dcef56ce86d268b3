//! Functions of dates and durations.

ghost use Rattle.std.specs.Prelude.{◌≡◌, Some};
ghost use Rattle.xf_base.specs.Limits.{string_limit};
ghost use Rattle.xf_def_values.specs.Bounded.{GivesBounded};
ghost use Rattle.xf_funcs.specs.Called.{by_dates};
ghost use Rattle.xf_funcs.specs.Numbers.{day_number, months_in, seconds_in};

use crate::fault::FuncFault;
use crate::given::{number_at, string_at};
use crate::strings::by_strings;
use std::alloc::Global;
use xf_dates::{date_of, day_of, duration, moment_of, seconds_of};
use xf_def_values::Plain;
use xf_num::{Decimals, Num};

/// The functions of dates and durations.
pub fn by_dates(
    alloc: Global,
    name: &str,
    given: &[Plain],
    decimals: Decimals,
) -> Result<Plain, FuncFault>
    ensures { GivesBounded FuncFault.Memory FuncFault.Long (λ value. value) result (by_dates (Some string_limit) decimals name.now given.now) }
{
    if name == "days-from-date" {
        let string = string_at(alloc, given, 0, decimals)?;
        return Ok(Plain::Number(day_number(day_of(string.as_str()), decimals)));
    }
    if name == "days-to-date" {
        let day = number_at(given, 0, decimals);
        return Ok(Plain::Text(date_of(alloc, day, decimals)?));
    }
    if name == "seconds-from-dateTime" {
        let string = string_at(alloc, given, 0, decimals)?;
        return Ok(Plain::Number(seconds_of(string.as_str(), decimals)));
    }
    if name == "seconds-to-dateTime" {
        let seconds = number_at(given, 0, decimals);
        return Ok(Plain::Text(moment_of(alloc, seconds, decimals)?));
    }
    if name == "months" {
        let string = string_at(alloc, given, 0, decimals)?;
        return Ok(Plain::Number(months_in(duration(string.as_str(), decimals))));
    }
    if name == "seconds" {
        let string = string_at(alloc, given, 0, decimals)?;
        return Ok(Plain::Number(seconds_in(duration(string.as_str(), decimals))));
    }
    by_strings(alloc, name, given, decimals)
}

/// So many days as a number.
fn day_number(day: Option<i64>, decimals: Decimals) -> Num
    ensures { result ≡ day_number decimals day }
{
    match day {
        Some(day) => Num::of_whole(day, decimals),
        None => Num::nan(),
    }
}

/// The months of a duration.
fn months_in(duration: Option<(Num, Num)>) -> Num
    ensures { result ≡ months_in duration }
{
    match duration {
        Some((months, _)) => months,
        None => Num::nan(),
    }
}

/// The seconds of a duration.
fn seconds_in(duration: Option<(Num, Num)>) -> Num
    ensures { result ≡ seconds_in duration }
{
    match duration {
        Some((_, seconds)) => seconds,
        None => Num::nan(),
    }
}
