//! What calls give, as words.

use std::alloc::{AllocError, Global};
use xf_io::Failed;

/// `done`, or `failed`.
pub fn push_done(words: &mut String, done: Result<(), Failed>) -> Result<(), AllocError> {
    words.push_str(if done.is_ok() { "done " } else { "failed " })
}

/// A number, or `failed`.
pub fn push_number(
    alloc: Global,
    words: &mut String,
    number: Result<u64, Failed>,
) -> Result<(), AllocError> {
    let Ok(number) = number else {
        return words.push_str("failed ");
    };
    let word = format!(in alloc; "{number} ")?;
    words.push_str(word.as_str())
}

/// How many bytes were read and all that then stands where they were read to, as `2:ab`, or `failed`.
pub fn push_read(
    alloc: Global,
    words: &mut String,
    read: Result<usize, Failed>,
    into: &[u8],
) -> Result<(), AllocError> {
    let Ok(count) = read else {
        return words.push_str("failed ");
    };
    let bytes = str::from_utf8(into).unwrap_or("no text");
    let word = format!(in alloc; "{count}:{bytes} ")?;
    words.push_str(word.as_str())
}
