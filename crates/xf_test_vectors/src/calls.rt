//! The crates that cases call.

use crate::{
    dates, explanations, functions, graphs, journals, json, names, numbers, schemas, snaps, tables,
    trees, types,
};
use hex::FromHexError;
use std::alloc::{AllocError, Global};
use xf_name::Word;
use xf_num::Decimals;

/// The text of an answer, or none where no such call takes so many arguments.
pub type Answer = Result<Option<String>, AllocError>;

/// What a call of a crate answers.
pub fn answer(alloc: Global, name: &str, call: &str, given: &[Word]) -> Answer {
    match name {
        "xf_num" => numbers::answer(alloc, call, given),
        "xf_types" => types::answer(alloc, call, given),
        "xf_dates" => dates::answer(alloc, call, given),
        "xf_funcs" => functions::answer(alloc, call, given),
        "xf_path" => trees::answer(alloc, call, given),
        "xf_json" => json::answer(alloc, call, given),
        "xf_name" => names::answer(alloc, call, given),
        "xf_table" => tables::answer(alloc, call, given),
        "xf_line" => json::line_answer(alloc, call, given),
        "xf_graph" => graphs::answer(alloc, call, given),
        "xf_snap" => snaps::answer(alloc, call, given),
        "xf_journal" => journals::answer(alloc, call, given),
        "xf_schema" => schemas::answer(alloc, call, given),
        "xf_form_explain" => explanations::answer(alloc, call, given),
        _ => Ok(None),
    }
}

/// So many decimals as a text says, none where it says no number from 0 to 9.
pub fn decimals_of(text: &str) -> Option<Decimals> {
    match text.parse::<u8>() {
        Ok(count) => Decimals::new(count),
        Err(_) => None,
    }
}

/// How many decimals the numbers of a call of so many arguments have: as the first text says where one more stands, and otherwise six.
pub fn decimals_before(given: &[Word], count: usize) -> Option<Decimals> {
    match given {
        [first, ..] if given.len() > count => decimals_of(first.as_str()),
        _ => Some(Decimals::usual()),
    }
}

/// The arguments of a call of so many, without the number of decimals before them.
pub fn arguments(given: &[Word], count: usize) -> &[Word] {
    match given {
        [_, rest @ ..] if given.len() > count => rest,
        _ => given,
    }
}

/// `yes` or `no`.
pub fn told(alloc: Global, is_so: bool) -> Answer {
    Ok(Some(String::from_str(alloc, if is_so { "yes" } else { "no" })?))
}

/// A whole number, or `none`.
pub fn counted(alloc: Global, number: Option<i128>) -> Answer {
    match number {
        Some(number) => Ok(Some(number.to_string(alloc)?)),
        None => Ok(Some(String::from_str(alloc, "none")?)),
    }
}

/// The bytes that hexadecimal digits spell, or none.
pub fn bytes_of(alloc: Global, digits: &str) -> Result<Option<Vec<u8>>, AllocError> {
    match hex::decode(alloc, digits) {
        Ok(bytes) => Ok(Some(bytes)),
        Err(FromHexError::OutOfMemory) => Err(AllocError),
        Err(_) => Ok(None),
    }
}

/// The bytes that words spell: each is hexadecimal digits, or `'` and a text.
pub fn spelt(alloc: Global, words: &str) -> Result<Option<Vec<u8>>, AllocError> {
    let mut bytes = Vec::new(alloc);
    for word in words.split_whitespace() {
        if let Some(text) = word.strip_prefix('\'') {
            bytes.extend_from_slice(text.as_bytes())?;
        } else {
            match bytes_of(alloc, word)? {
                Some(more) => bytes.extend_from_slice(&more)?,
                None => return Ok(None),
            }
        }
    }
    Ok(Some(bytes))
}
