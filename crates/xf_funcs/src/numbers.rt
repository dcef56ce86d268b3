//! Powers.

ghost use Rattle.std.specs.Prelude.{◌≡◌, ◌<◌, unsigned_abs};
ghost use Rattle.xf_num.specs.Number.{size_limit};
ghost use Rattle.xf_funcs.specs.Numbers.{multiplied, exponent_in, exponent_of, power};

use crate::conversions::whole;
use xf_num::{Decimals, Num};

/// The greatest exponent.
const EXPONENT_LIMIT: u64 = 64;

/// 1 multiplied by a number so many times; NaN where that is no whole number from 0 to 64.
pub fn power(number: Num, exponent: Num, decimals: Decimals) -> Num
    ensures { result ≡ power decimals number exponent }
{
    match exponent_of(exponent, decimals) {
        Some(count) => multiplied(number, count, decimals),
        None => Num::nan(),
    }
}

/// The number as an exponent.
fn exponent_of(number: Num, decimals: Decimals) -> Option<u8>
    ensures { result ≡ exponent_of decimals number }
{
    match number.units() {
        Some(units) => exponent_in(units, decimals),
        None => None,
    }
}

/// So many units as an exponent.
fn exponent_in(units: i128, decimals: Decimals) -> Option<u8>
    requires { unsigned_abs units < size_limit }
    ensures { result ≡ exponent_in decimals units }
{
    if units < 0 {
        return None;
    }
    let size = units as u64;
    let one = decimals.units_in_one();
    if size % one != 0 {
        return None;
    }
    if size / one > EXPONENT_LIMIT {
        return None;
    }
    Some((size / one) as u8)
}

/// 1 multiplied by a number so many times.
fn multiplied(number: Num, count: u8, decimals: Decimals) -> Num
    ensures { result ≡ multiplied decimals number count }
{
    let mut product = whole(1, decimals);
    for _ in 0..count {
        product = product.mul(number, decimals);
    }
    product
}
