//! The seconds that dateTimes stand for, with their decimals.

ghost use Rattle.std.specs.Prelude.{◌≡◌, ◌<◌, ◌^◌, pos, ◌+ℤ◌, ◌*ℤ◌, unsigned_abs};
ghost use Rattle.xf_num.specs.Number.{scale, size_limit, in_range};
ghost use Rattle.xf_dates.specs.Instants.{seconds_in, seconds_of};

use crate::days::second_at;
use crate::decimals::{decimal_units, decimals_at};
use xf_num::{Decimals, Num, trimmed};
use xf_types::{cut, is_date_time};

/// The seconds from 1970-01-01T00:00:00Z to a dateTime, where one without a zone is in UTC; NaN where a text is none.
pub fn seconds_of(text: &str, decimals: Decimals) -> Num
    ensures { result ≡ seconds_of decimals text.now }
{
    seconds_in(trimmed(text.as_bytes()), decimals)
}

/// The same, of a text without white space at its ends.
fn seconds_in(text: &[u8], decimals: Decimals) -> Num
    ensures { result ≡ seconds_in decimals text.now }
{
    if !is_date_time(text) {
        return Num::nan();
    }
    let units = decimal_units(decimals_at(cut(text, 19).1), decimals);
    number_of(second_at(text), units, decimals)
}

/// So many whole seconds and so many units of the last decimal, as a number.
fn number_of(second: i64, units: u64, decimals: Decimals) -> Num
    requires second { unsigned_abs second < 2 ^ 50 }
    requires units { units < size_limit }
    ensures { result ≡ in_range (second *ℤ pos (scale decimals) +ℤ pos units) }
{
    let one = i128::from(decimals.units_in_one());
    Num::of_units(i128::from(second) * one + i128::from(units))
}
