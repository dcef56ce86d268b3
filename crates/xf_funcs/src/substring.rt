//! The characters of a text at some places.

ghost use Rattle.std.specs.Prelude.{◌≡◌, ◌<◌, unsigned_abs};
ghost use Rattle.xf_num.specs.Number.{size_limit};
ghost use Rattle.xf_funcs.specs.Substring.{least_place, place_of, substring_from, substring_of};

use crate::text::{front, past};
use xf_num::{Decimals, Num};

/// The characters from a rounded place on.
pub fn substring_from(text: &str, start: Num, decimals: Decimals) -> &str
    ensures { result.now ≡ substring_from decimals text.now start }
{
    match least_place(start.round(decimals), decimals) {
        Some(first) => past(text, first.max(1) - 1),
        None => "",
    }
}

/// The characters from a rounded place on, before that place and a rounded length together.
pub fn substring_of(text: &str, start: Num, count: Num, decimals: Decimals) -> &str
    ensures { result.now ≡ substring_of decimals text.now start count }
{
    let from = start.round(decimals);
    let to = from.add(count.round(decimals));
    let Some(first) = least_place(from, decimals) else {
        return "";
    };
    let Some(end) = least_place(to, decimals) else {
        return "";
    };
    let first = first.max(1);
    front(past(text, first - 1), end.saturating_sub(first))
}

/// The least place that is not below a number, none for NaN.
fn least_place(number: Num, decimals: Decimals) -> Option<usize>
    ensures { result ≡ least_place decimals number }
{
    match number.units() {
        Some(units) => Some(place_of(units, decimals)),
        None => None,
    }
}

/// The least place that is not below so many units.
fn place_of(units: i128, decimals: Decimals) -> usize
    requires { unsigned_abs units < size_limit }
    ensures { result ≡ place_of decimals units }
{
    if units < 0 {
        return 0;
    }
    let size = units as u64;
    let one = decimals.units_in_one();
    ((size + (one - 1)) / one) as usize
}
