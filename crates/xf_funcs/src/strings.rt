//! Functions of strings.

ghost use Rattle.std.specs.Prelude.{◌≡◌, Some};
ghost use Rattle.xf_base.specs.Limits.{string_limit};
ghost use Rattle.xf_def_values.specs.declared.plain.Plain.TheVariants.{Text};
ghost use Rattle.xf_def_values.specs.Bounded.{GivesBounded};
ghost use Rattle.xf_funcs.specs.Called.{property_value, concat_of, substring_called, translate_of, by_strings, by_texts};

use crate::conversions::{string_of, whole};
use crate::fault::FuncFault;
use crate::given::{number_at, string_at};
use crate::searching::{after, before, begins_with, compared, contains, is_true_text};
use crate::substring::{substring_from, substring_of};
use crate::translate::translated;
use std::alloc::Global;
use xf_base::limits::STRING_LIMIT;
use xf_def_values::Plain;
use xf_name::Word;
use xf_num::Decimals;
use xf_types::{char_count, normalized};

/// The functions that ask something of strings.
pub fn by_strings(
    alloc: Global,
    name: &str,
    given: &[Plain],
    decimals: Decimals,
) -> Result<Plain, FuncFault>
    ensures { GivesBounded FuncFault.Memory FuncFault.Long (λ value. value) result (by_strings (Some string_limit) decimals name.now given.now) }
{
    if name == "string-length" {
        let string = string_at(alloc, given, 0, decimals)?;
        return Ok(Plain::Number(whole(char_count(string.as_str()), decimals)));
    }
    if name == "contains" {
        let string = string_at(alloc, given, 0, decimals)?;
        let part = string_at(alloc, given, 1, decimals)?;
        return Ok(Plain::Truth(contains(string.as_str(), part.as_str())));
    }
    if name == "starts-with" {
        let string = string_at(alloc, given, 0, decimals)?;
        let front = string_at(alloc, given, 1, decimals)?;
        return Ok(Plain::Truth(begins_with(string.as_str(), front.as_str())));
    }
    if name == "compare" {
        let left = string_at(alloc, given, 0, decimals)?;
        let right = string_at(alloc, given, 1, decimals)?;
        return Ok(Plain::Number(compared(left.as_str(), right.as_str(), decimals)));
    }
    if name == "boolean-from-string" {
        let string = string_at(alloc, given, 0, decimals)?;
        return Ok(Plain::Truth(is_true_text(string.as_str())));
    }
    by_texts(alloc, name, given, decimals)
}

/// The functions that give texts.
fn by_texts(
    alloc: Global,
    name: &str,
    given: &[Plain],
    decimals: Decimals,
) -> Result<Plain, FuncFault>
    ensures { GivesBounded FuncFault.Memory FuncFault.Long (λ value. value) result (by_texts (Some string_limit) decimals name.now given.now) }
{
    if name == "concat" {
        return concat_of(alloc, given, decimals);
    }
    if name == "substring" {
        return substring_called(alloc, given, decimals);
    }
    if name == "substring-before" {
        let string = string_at(alloc, given, 0, decimals)?;
        let part = string_at(alloc, given, 1, decimals)?;
        return text(alloc, before(string.as_str(), part.as_str()));
    }
    if name == "substring-after" {
        let string = string_at(alloc, given, 0, decimals)?;
        let part = string_at(alloc, given, 1, decimals)?;
        return text(alloc, after(string.as_str(), part.as_str()));
    }
    if name == "normalize-space" {
        let string = string_at(alloc, given, 0, decimals)?;
        return Ok(Plain::Text(Word::from_string(normalized(alloc, string.as_str())?)));
    }
    if name == "translate" {
        return translate_of(alloc, given, decimals);
    }
    if name == "property" {
        let string = string_at(alloc, given, 0, decimals)?;
        return text(alloc, property_value(string.as_str()));
    }
    text(alloc, "")
}

/// A text as a value.
fn text(alloc: Global, text: &str) -> Result<Plain, FuncFault>
    ensures { GivesBounded FuncFault.Memory FuncFault.Long (λ value. value) result (Some (Text text.now)) }
{
    Ok(Plain::Text(Word::from_str(alloc, text)?))
}

fn property_value(name: &str) -> &'static str
    ensures { result.now ≡ property_value name.now }
{
    if name == "version" { "1.1" } else { "" }
}

fn substring_called(alloc: Global, given: &[Plain], decimals: Decimals) -> Result<Plain, FuncFault>
    ensures { GivesBounded FuncFault.Memory FuncFault.Long (λ value. value) result (substring_called (Some string_limit) decimals given.now) }
{
    let string = string_at(alloc, given, 0, decimals)?;
    let start = number_at(given, 1, decimals);
    if given.len() == 3 {
        let count = number_at(given, 2, decimals);
        return text(alloc, substring_of(string.as_str(), start, count, decimals));
    }
    text(alloc, substring_from(string.as_str(), start, decimals))
}

fn translate_of(alloc: Global, given: &[Plain], decimals: Decimals) -> Result<Plain, FuncFault>
    ensures { GivesBounded FuncFault.Memory FuncFault.Long (λ value. value) result (translate_of (Some string_limit) decimals given.now) }
{
    let string = string_at(alloc, given, 0, decimals)?;
    let from = string_at(alloc, given, 1, decimals)?;
    let to = string_at(alloc, given, 2, decimals)?;
    let made = translated(alloc, string.as_str(), from.as_str(), to.as_str())?;
    Ok(Plain::Text(Word::from_string(made)))
}

/// The strings of all arguments, one behind the other.
fn concat_of(alloc: Global, given: &[Plain], decimals: Decimals) -> Result<Plain, FuncFault>
    ensures { GivesBounded FuncFault.Memory FuncFault.Long (λ value. value) result (concat_of (Some string_limit) decimals given.now) }
{
    let mut made = Word::new(alloc);
    for value in given {
        let string = match string_of(alloc, value, decimals) {
            Ok(string) => string,
            Err(fault) => return Err(fault),
        };
        if made.len() + string.len() > STRING_LIMIT as usize {
            return Err(FuncFault::Long);
        }
        made.push_str(string.as_str())?;
    }
    Ok(Plain::Text(made))
}
