//! The calls of xf_funcs, which are the names of functions. `#` stands before a number, `?` before a truth, `'` before a text;
//! what begins with none of these and stands before all is how many decimals numbers have.

use crate::calls::{Answer, decimals_of};
use std::alloc::{AllocError, Global};
use xf_funcs::{FuncFault, Plain, call, is_served};
use xf_name::Word;
use xf_num::{Decimals, Num};
use xf_table::find;
use xf_table::functions::rows;

pub fn answer(alloc: Global, name: &str, given: &[Word]) -> Answer {
    match find(rows(), name) {
        Some(code) => answer_of(alloc, code, given),
        None => Ok(None),
    }
}

fn answer_of(alloc: Global, code: u16, given: &[Word]) -> Answer {
    let [first, rest @ ..] = given else {
        return Ok(None);
    };
    match decimals_of(first.as_str()) {
        Some(decimals) => answer_with(alloc, code, rest, decimals),
        None => answer_with(alloc, code, given, Decimals::usual()),
    }
}

fn answer_with(alloc: Global, code: u16, given: &[Word], decimals: Decimals) -> Answer {
    let mut values = Vec::new(alloc);
    if push_values(alloc, &mut values, given, decimals)? {
        called(alloc, code, &values, decimals)
    } else {
        Ok(None)
    }
}

/// Appends the values that texts spell, and answers whether each spells one.
fn push_values(
    alloc: Global,
    values: &mut Vec<Plain>,
    given: &[Word],
    decimals: Decimals,
) -> Result<bool, AllocError> {
    for text in given {
        match value_of(alloc, text.as_str(), decimals)? {
            Some(value) => values.push(value)?,
            None => return Ok(false),
        }
    }
    Ok(true)
}

fn called(alloc: Global, code: u16, values: &[Plain], decimals: Decimals) -> Answer {
    if !is_served(code, values.len()) {
        return Ok(None);
    }
    match call(alloc, code, values, decimals) {
        Ok(value) => spelled(alloc, &value, decimals),
        Err(FuncFault::Long) => Ok(Some(String::from_str(alloc, "Long")?)),
        Err(FuncFault::Memory) => Err(AllocError),
    }
}

fn value_of(alloc: Global, text: &str, decimals: Decimals) -> Result<Option<Plain>, AllocError> {
    if let Some(number) = text.strip_prefix('#') {
        return Ok(Some(Plain::Number(Num::read(number, decimals))));
    }
    if let Some(truth) = text.strip_prefix('?') {
        return Ok(Some(Plain::Truth(truth == "true")));
    }
    match text.strip_prefix('\'') {
        Some(text) => Ok(Some(Plain::Text(Word::from_str(alloc, text)?))),
        None => Ok(None),
    }
}

fn spelled(alloc: Global, value: &Plain, decimals: Decimals) -> Answer {
    match value {
        Plain::Text(text) => marked(alloc, "'", text.as_str()),
        Plain::Number(number) => marked(alloc, "#", number.print(alloc, decimals)?.as_str()),
        Plain::Truth(truth) => marked(alloc, "?", if *truth { "true" } else { "false" }),
    }
}

/// A mark and a text.
fn marked(alloc: Global, mark: &str, text: &str) -> Answer {
    Ok(Some([mark, text].concat(alloc)?))
}
