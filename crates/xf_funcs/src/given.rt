//! The arguments of a call.

ghost use Rattle.std.specs.Prelude.{◌≡◌, Some};
ghost use Rattle.std.specs.Cow.{cow_str_bytes};
ghost use Rattle.xf_base.specs.Limits.{string_limit};
ghost use Rattle.xf_def_values.specs.Bounded.{GivesBounded};
ghost use Rattle.xf_funcs.specs.Given.{string_at, number_at};

use crate::conversions::{number_of, string_of};
use crate::fault::FuncFault;
use std::alloc::Global;
use std::borrow::CowStr;
use xf_def_values::Plain;
use xf_num::{Decimals, Num};

/// The string of the argument at a place from 0.
pub fn string_at<'a>(
    alloc: Global,
    given: &'a [Plain],
    at: usize,
    decimals: Decimals,
) -> Result<CowStr<'a, Global>, FuncFault>
    ensures { GivesBounded FuncFault.Memory FuncFault.Long cow_str_bytes result (string_at (Some string_limit) decimals given.now at) }
{
    match given.get(at) {
        Some(value) => string_of(alloc, value, decimals),
        None => Ok(CowStr::Borrowed("")),
    }
}

/// The argument at a place as a number.
pub fn number_at(given: &[Plain], at: usize, decimals: Decimals) -> Num
    ensures { result ≡ number_at decimals given.now at }
{
    match given.get(at) {
        Some(value) => number_of(value, decimals),
        None => Num::nan(),
    }
}
