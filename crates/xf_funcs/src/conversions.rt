//! The conversions of plain values.

ghost use Rattle.std.specs.Prelude.{◌≡◌, Some};
ghost use Rattle.std.specs.Cow.{cow_str_bytes};
ghost use Rattle.xf_base.specs.Limits.{string_limit};
ghost use Rattle.xf_def_values.specs.Bounded.{GivesBounded, capped};
ghost use Rattle.xf_def_values.specs.Conversions.{whole, number_of_truth, number_in, text_of_truth};
ghost use Rattle.xf_funcs.specs.Given.{string_of};

use crate::fault::FuncFault;
use std::alloc::Global;
use std::borrow::CowStr;
use xf_base::limits::STRING_LIMIT;
use xf_def_values::Plain;
use xf_num::{Decimals, Num};

/// The value as a number.
pub fn number_of(value: &Plain, decimals: Decimals) -> Num
    ensures { result ≡ number_in decimals value.now }
{
    match value {
        Plain::Text(text) => Num::read(text.as_str(), decimals),
        Plain::Number(number) => *number,
        Plain::Truth(truth) => number_of_truth(*truth, decimals),
    }
}

fn number_of_truth(truth: bool, decimals: Decimals) -> Num
    ensures { result ≡ number_of_truth decimals truth }
{
    if truth {
        whole(1, decimals)
    } else {
        whole(0, decimals)
    }
}

/// A whole number.
pub fn whole(count: usize, decimals: Decimals) -> Num
    ensures { result ≡ whole decimals count }
{
    Num::of_units(i128::from(count as u64) * i128::from(decimals.units_in_one()))
}

/// The string of a value, which is copied only where it has to be made.
pub fn string_of<'a>(
    alloc: Global,
    value: &'a Plain,
    decimals: Decimals,
) -> Result<CowStr<'a, Global>, FuncFault>
    ensures { GivesBounded FuncFault.Memory FuncFault.Long cow_str_bytes result (string_of (Some string_limit) decimals value.now) }
{
    match value {
        Plain::Text(text) => capped(CowStr::Borrowed(text.as_str())),
        Plain::Number(number) => capped(CowStr::Owned(number.print(alloc, decimals)?)),
        Plain::Truth(truth) => capped(CowStr::Borrowed(text_of_truth(*truth))),
    }
}

fn text_of_truth(truth: bool) -> &'static str
    ensures { result.now ≡ text_of_truth truth }
{
    if truth { "true" } else { "false" }
}

/// The string, where it keeps the limit.
fn capped<'a>(string: CowStr<'a, Global>) -> Result<CowStr<'a, Global>, FuncFault>
    ensures { GivesBounded FuncFault.Memory FuncFault.Long cow_str_bytes result (capped (Some string_limit) (cow_str_bytes string.entry)) }
{
    if string.len() > STRING_LIMIT as usize {
        return Err(FuncFault::Long);
    }
    Ok(string)
}
