//! Printing numbers.

ghost use Rattle.std.specs.Prelude.{◌≡◌, ◌≤◌, ◌<◌, ◌++◌, string_bytes, IfOk, OnOk};
ghost use Rattle.xf_num.specs.Number.{scale};
ghost use Rattle.xf_num.specs.Written.{printed, sign_of, size_text, after_point, decimals_of};

use crate::number::Num;
use crate::scales::{Decimals, units_for};
use itoa::Buffer;
use std::alloc::{AllocError, Global};

/// No number is printed with more bytes.
const PRINTED_MOST: usize = 24;

impl Num {
    /// The text of the number: without a point where it is whole, without trailing zeros, with `0` before a leading point.
    pub fn print(self, alloc: Global, decimals: Decimals) -> Result<String, AllocError>
        ensures { IfOk result (λ s. string_bytes s ≡ printed decimals self) }
    {
        let Some(units) = self.units() else {
            return String::from_str(alloc, "NaN");
        };
        let mut text = String::with_capacity(alloc, PRINTED_MOST)?;
        push_sign(&mut text, units)?;
        push_size(&mut text, units.unsigned_abs() as u64, decimals)?;
        Ok(text)
    }
}

/// Appends a minus where so many units are negative.
fn push_sign(text: &mut String, units: i128) -> Result<(), AllocError>
    ensures { OnOk result (string_bytes text.new ≡ string_bytes text.old ++ sign_of units) }
{
    if units < 0 {
        text.push('-')?;
    }
    Ok(())
}

/// Appends so many units, without a sign.
fn push_size(text: &mut String, size: u64, decimals: Decimals) -> Result<(), AllocError>
    ensures { OnOk result (string_bytes text.new ≡ string_bytes text.old ++ size_text decimals size) }
{
    let one = decimals.units_in_one();
    let mut buffer = Buffer::new();
    text.push_str(buffer.format(size / one))?;
    push_decimals(text, size % one, decimals)
}

/// Appends a point and the decimals of so many units below one, and nothing where there are none.
fn push_decimals(text: &mut String, units: u64, decimals: Decimals) -> Result<(), AllocError>
    requires { units < scale decimals }
    ensures { OnOk result (string_bytes text.new ≡ string_bytes text.old ++ after_point (decimals_of decimals units)) }
{
    if units == 0 {
        return Ok(());
    }
    text.push('.')?;
    let mut rest = units;
    let mut left = decimals.count();
    'places: while rest != 0 {
        left -= 1;
        let unit = units_for(left);
        text.push(char::from(b'0' + (rest / unit) as u8))?;
        rest %= unit;
    }
    Ok(())
}
