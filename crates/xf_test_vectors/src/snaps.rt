//! The calls of xf_snap. Bytes are spelt by words: hexadecimal digits, or `'` and a text.

use crate::calls::{Answer, spelt};
use std::alloc::{AllocError, Global};
use xf_name::Word;
use xf_snap::{CountList, Snap, decode, encode};

pub fn answer(alloc: Global, call: &str, given: &[Word]) -> Answer {
    let [words] = given else {
        return Ok(None);
    };
    let Some(bytes) = spelt(alloc, words.as_str())? else {
        return Ok(None);
    };
    match call {
        "decode" => decoded(alloc, &bytes),
        "again" => again(alloc, &bytes),
        _ => Ok(None),
    }
}

/// What is decoded, in numbers.
fn decoded(alloc: Global, bytes: &[u8]) -> Answer {
    match decode(alloc, bytes)? {
        Some(snap) => fields_of(alloc, &snap),
        None => Ok(Some(String::from_str(alloc, "none")?)),
    }
}

fn fields_of(alloc: Global, snap: &Snap) -> Answer {
    let accepted = snap.accepted;
    let documents = snap.documents.len();
    let indexes = list_of(alloc, &snap.indexes)?;
    let cases = list_of(alloc, &snap.cases)?;
    Ok(Some(format!(in alloc;
        "accepted {accepted} documents {documents} indexes {indexes} cases {cases}"
    )?))
}

fn list_of(alloc: Global, counts: &CountList) -> Result<String, AllocError> {
    let counts = counts.as_slice();
    format!(in alloc; "{counts:?}")
}

/// Whether what is decoded has these very bytes.
fn again(alloc: Global, bytes: &[u8]) -> Answer {
    let Some(snap) = decode(alloc, bytes)? else {
        return Ok(Some(String::from_str(alloc, "none")?));
    };
    let encoded = encode(alloc, &snap)?;
    let is_same = encoded.as_slice() == bytes;
    Ok(Some(String::from_str(alloc, if is_same { "same" } else { "other" })?))
}
