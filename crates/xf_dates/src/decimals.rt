//! The decimals of a second.

ghost use Rattle.std.specs.Prelude.{◌≡◌, ◌<◌, true};
ghost use Rattle.xf_num.specs.Number.{size_limit};
ghost use Rattle.xf_num.specs.Written.{is_empty, leading_digits, after_digits, units_of};
ghost use Rattle.xf_dates.specs.Decimals.{decimals_at, past_decimals};

use xf_num::{Decimals, after_digits, digits_onto, with_decimals};
use xf_types::{begins_with, cut, past_first};

/// The digits that a text begins with.
fn leading_digits(text: &[u8]) -> &[u8]
    ensures { result.now ≡ leading_digits text.now }
{
    let (_, count) = digits_onto(0, text);
    cut(text, count).0
}

/// The digits after a point, and none where there is no point.
pub fn decimals_at(text: &[u8]) -> &[u8]
    ensures value { result.now ≡ decimals_at text.now }
    ensures digits { is_empty (after_digits result.now) ≡ true }
{
    if begins_with(b'.', text) {
        leading_digits(past_first(text))
    } else {
        cut(text, 0).0
    }
}

/// What follows a point and its digits, and otherwise the text.
pub fn past_decimals(text: &[u8]) -> &[u8]
    ensures { result.now ≡ past_decimals text.now }
{
    if begins_with(b'.', text) {
        after_digits(past_first(text))
    } else {
        text
    }
}

/// The units that decimals write; those after the last that counts are dropped.
pub fn decimal_units(digits: &[u8], decimals: Decimals) -> u64
    requires { is_empty (after_digits digits.now) ≡ true }
    ensures value { result ≡ units_of decimals 0 digits.now }
    ensures size { result < size_limit }
{
    let most = decimals.count();
    // So few decimals write less than 10^18 units.
    prove!(most <= 9);
    match with_decimals(0, digits, decimals).units() {
        Some(units) => units.unsigned_abs() as u64,
        None => unreachable!(),
    }
}
