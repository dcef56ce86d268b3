//! Numbers: NaN, or a whole count of units of the last decimal.

ghost use Rattle.std.specs.Prelude.{◌≡◌, ◌<◌, ◌≤◌, ◌*◌, None, pos, ◌*ℤ◌, neg_ℤ, int_div, unsigned_abs, IfSome};
ghost use Rattle.xf_num.specs.Number.{size_limit, scale, in_range, sum, difference, product, quotient, remainder, floor_of, ceiling_of, rounded, order_of, lower_whole};

use crate::scales::Decimals;
use std::cmp::Ordering;
use std::marker::Model;

/// The sizes of numbers are below this many units.
const SIZE_LIMIT: i128 = 1_000_000_000_000_000_000;

/// A number: NaN, or a whole count of units of the last decimal, with a size below 10^18.
#[derive(Clone, Copy, Debug)]
pub struct Num {
    units: Option<i128>,
}

impl Model for Num {
    ghost use Rattle.std.specs.Prelude.{ℤ, Option};
    ghost use Rattle.xf_num.specs.Number.{IsNumber};

    ghost Value = { Option ℤ };

    ghost view = { λ n. n.units };

    ghost invariant = { λ n. IsNumber n.units };

    ghost inverse = { λ units. record { units = units } };
}

impl Num {
    /// Not a number.
    pub fn nan() -> Num
        ensures { result ≡ None }
    {
        Num { units: None }
    }

    /// So many units, or NaN where they are 10^18 or more in size.
    pub fn of_units(units: i128) -> Num
        ensures { result ≡ in_range units }
    {
        if -SIZE_LIMIT < units && units < SIZE_LIMIT {
            Num { units: Some(units) }
        } else {
            Num { units: None }
        }
    }

    /// So many whole units, or NaN where the units of the last decimal are 10^18 or more in size.
    pub fn of_whole(number: i64, decimals: Decimals) -> Num
        ensures { result ≡ in_range (number *ℤ pos (scale decimals)) }
    {
        Num::of_units(i128::from(number) * i128::from(decimals.units_in_one()))
    }

    /// The units, or none for NaN.
    pub fn units(self) -> Option<i128>
        ensures value { result ≡ self }
        ensures size { IfSome result (λ k. unsigned_abs k < size_limit) }
    {
        self.units
    }

    pub fn add(self, other: Num) -> Num
        ensures { result ≡ sum self other }
    {
        match (self.units, other.units) {
            (Some(a), Some(b)) => Num::of_units(a + b),
            _ => Num::nan(),
        }
    }

    pub fn sub(self, other: Num) -> Num
        ensures { result ≡ difference self other }
    {
        match (self.units, other.units) {
            (Some(a), Some(b)) => Num::of_units(a - b),
            _ => Num::nan(),
        }
    }

    /// The product, cut toward zero.
    pub fn mul(self, other: Num, decimals: Decimals) -> Num
        ensures { result ≡ product decimals self other }
    {
        match (self.units, other.units) {
            (Some(a), Some(b)) => Num::of_units(product_units(a, b, decimals)),
            _ => Num::nan(),
        }
    }

    /// The quotient, cut toward zero; NaN for a divisor of 0.
    pub fn div(self, other: Num, decimals: Decimals) -> Num
        ensures { result ≡ quotient decimals self other }
    {
        match (self.units, other.units) {
            (Some(a), Some(b)) => {
                if b == 0 {
                    return Num::nan();
                }
                Num::of_units(quotient_units(a, b, decimals))
            }
            _ => Num::nan(),
        }
    }

    /// What is left of the dividend, with its sign; NaN for a divisor of 0.
    pub fn rem(self, other: Num) -> Num
        ensures { result ≡ remainder self other }
    {
        match (self.units, other.units) {
            (Some(_), Some(0)) => Num::nan(),
            (Some(a), Some(b)) => Num::of_units(a % b),
            _ => Num::nan(),
        }
    }

    /// The greatest whole number that is not above.
    pub fn floor(self, decimals: Decimals) -> Num
        ensures { result ≡ floor_of decimals self }
    {
        match self.units {
            Some(a) => Num::of_units(whole_below(a, decimals)),
            None => Num::nan(),
        }
    }

    /// The least whole number that is not below.
    pub fn ceiling(self, decimals: Decimals) -> Num
        ensures { result ≡ ceiling_of decimals self }
    {
        match self.units {
            Some(a) => Num::of_units(whole_above(a, decimals)),
            None => Num::nan(),
        }
    }

    /// The nearest whole number; where two are as near, the greater.
    pub fn round(self, decimals: Decimals) -> Num
        ensures { result ≡ rounded decimals self }
    {
        match self.units {
            Some(a) => {
                let half = i128::from(decimals.units_in_one() / 2);
                Num::of_units(whole_below(a + half, decimals))
            }
            None => Num::nan(),
        }
    }

    /// How the two stand, or none where one is NaN.
    pub fn order(self, other: Num) -> Option<Ordering>
        ensures { result ≡ order_of self other }
    {
        match (self.units, other.units) {
            (Some(a), Some(b)) => Some(a.cmp(&b)),
            _ => None,
        }
    }
}

/// The units of a product, cut toward zero.
fn product_units(a: i128, b: i128, decimals: Decimals) -> i128
    requires left { unsigned_abs a < size_limit }
    requires right { unsigned_abs b < size_limit }
    ensures { result ≡ int_div (a *ℤ b) (pos (scale decimals)) }
{
    let one = i128::from(decimals.units_in_one());
    a * b / one
}

/// The units of a quotient, cut toward zero.
fn quotient_units(a: i128, b: i128, decimals: Decimals) -> i128
    requires dividend { unsigned_abs a < size_limit }
    requires divisor { 0 < unsigned_abs b }
    requires range { unsigned_abs b < size_limit }
    ensures { result ≡ int_div (a *ℤ pos (scale decimals)) b }
{
    let one = i128::from(decimals.units_in_one());
    a * one / b
}

/// The units of the greatest whole number that is at most so many units.
fn whole_below(units: i128, decimals: Decimals) -> i128
    requires size { unsigned_abs units < 2 * size_limit }
    ensures value { result ≡ lower_whole decimals units }
    ensures size { unsigned_abs result < 3 * size_limit }
{
    let one = i128::from(decimals.units_in_one());
    units.div_euclid(one) * one
}

/// The units of the least whole number that is at least so many units.
fn whole_above(units: i128, decimals: Decimals) -> i128
    requires size { unsigned_abs units < size_limit }
    ensures { result ≡ neg_ℤ (lower_whole decimals (neg_ℤ units)) }
{
    -whole_below(-units, decimals)
}
