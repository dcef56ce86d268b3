//! Calls of functions.

ghost use Rattle.std.specs.Prelude.{◌≡◌, Some};
ghost use Rattle.xf_base.specs.Limits.{string_limit};
ghost use Rattle.xf_table.specs.Contents.{function_entries};
ghost use Rattle.xf_table.specs.Places.{name_at};
ghost use Rattle.xf_def_values.specs.Bounded.{GivesBounded};
ghost use Rattle.xf_funcs.specs.Called.{by_name, called};

use crate::dates::by_dates;
use crate::fault::FuncFault;
use crate::given::number_at;
use crate::numbers::power;
use std::alloc::Global;
use xf_def_values::Plain;
use xf_num::Decimals;
use xf_table::functions::rows;

/// The value of a function on plain values, which is known by its code in the table of functions, at these arguments.
pub fn call(
    alloc: Global,
    code: u16,
    given: &[Plain],
    decimals: Decimals,
) -> Result<Plain, FuncFault>
    ensures { GivesBounded FuncFault.Memory FuncFault.Long (λ value. value) result (called (Some string_limit) decimals code given.now) }
{
    by_name(alloc, name_of(code), given, decimals)
}

/// The name of the function with the code.
fn name_of(code: u16) -> &'static str
    ensures { result.now ≡ name_at function_entries code }
{
    match rows().get(code as usize) {
        Some(row) => row.name,
        None => "",
    }
}

fn by_name(
    alloc: Global,
    name: &str,
    given: &[Plain],
    decimals: Decimals,
) -> Result<Plain, FuncFault>
    ensures { GivesBounded FuncFault.Memory FuncFault.Long (λ value. value) result (by_name (Some string_limit) decimals name.now given.now) }
{
    if name == "round" {
        return Ok(Plain::Number(number_at(given, 0, decimals).round(decimals)));
    }
    if name == "floor" {
        return Ok(Plain::Number(number_at(given, 0, decimals).floor(decimals)));
    }
    if name == "ceiling" {
        return Ok(Plain::Number(number_at(given, 0, decimals).ceiling(decimals)));
    }
    if name == "power" {
        let number = number_at(given, 0, decimals);
        let exponent = number_at(given, 1, decimals);
        return Ok(Plain::Number(power(number, exponent, decimals)));
    }
    by_dates(alloc, name, given, decimals)
}
