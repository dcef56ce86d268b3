//! The answers of an entry, as bytes and back.
ghost use Rattle.std.specs.Prelude.{◌≡◌, ◌≤◌, ◌++◌, length, IfOk, OnOk, IsTrue};
ghost use Rattle.std.specs.Option.{option_map};
ghost use Rattle.std.specs.List.{list_all};
ghost use Rattle.xf_store.specs.Replies.{is_short};
ghost use Rattle.xf_journal.specs.Entry.{answer_bytes, answers_bytes, front_of, answer_in, found_in, these_answers, answers_in};

use crate::number::{four, from_four};
use std::alloc::{AllocError, Global};
use xf_base::limits::{ANSWER_LIMIT, FOUND_LIMIT};
use xf_io::Bytes;
use xf_store::{Answer, Answers};

/// Adds the bytes of one answer.
fn put_answer(bytes: &mut Vec<u8>, answer: &Answer) -> Result<(), AllocError>
    requires { IsTrue (is_short answer.now) }
    ensures { OnOk result (bytes.new.items ≡ bytes.old.items ++ answer_bytes answer.now) }
{
    match answer {
        Answer::PutDone => bytes.push(0)?,
        Answer::Failed => bytes.push(1)?,
        Answer::Found(found) => {
            bytes.push(2)?;
            bytes.extend_from_slice(&four(found.len() as u32))?;
            bytes.extend_from_slice(found.as_slice())?;
        }
        Answer::Absent => bytes.push(3)?,
        Answer::TooLong => bytes.push(4)?,
    }
    Ok(())
}

/// Adds the number of the answers, and each in turn.
pub fn put_answers(bytes: &mut Vec<u8>, answers: &Answers) -> Result<(), AllocError>
    requires few { length answers.now ≤ 16 }
    requires short { IsTrue (list_all is_short answers.now) }
    ensures { OnOk result (bytes.new.items ≡ bytes.old.items ++ answers_bytes answers.now) }
{
    bytes.push(answers.len() as u8)?;
    for answer in answers.as_slice() {
        put_answer(bytes, answer)?;
    }
    Ok(())
}

/// What was found, at the front of these bytes, and the bytes behind it.
fn found_in(alloc: Global, bytes: &[u8]) -> Result<Option<(Answer, &[u8])>, AllocError>
    ensures { IfOk result (λ found. option_map front_of found ≡ found_in bytes.now) }
{
    if bytes.len() < 4 {
        return Ok(None);
    }
    let length = from_four(bytes) as usize;
    if length > FOUND_LIMIT || length > bytes.len() - 4 {
        return Ok(None);
    }
    let found = Vec::from_slice(alloc, &bytes[4..4 + length])?;
    Ok(Some((Answer::Found(Bytes::from_vec(found)), &bytes[4 + length..])))
}

/// The answer at the front of these bytes, and the bytes behind it.
fn answer_in(alloc: Global, bytes: &[u8]) -> Result<Option<(Answer, &[u8])>, AllocError>
    ensures { IfOk result (λ found. option_map front_of found ≡ answer_in bytes.now) }
{
    let Some((kind, rest)) = bytes.split_first() else {
        return Ok(None);
    };
    match *kind {
        0 => Ok(Some((Answer::PutDone, rest))),
        1 => Ok(Some((Answer::Failed, rest))),
        2 => found_in(alloc, rest),
        3 => Ok(Some((Answer::Absent, rest))),
        4 => Ok(Some((Answer::TooLong, rest))),
        _ => Ok(None),
    }
}

/// The answers that these bytes are, if they are answers.
pub fn answers_in(alloc: Global, bytes: &[u8]) -> Result<Option<Answers>, AllocError>
    ensures { IfOk result (λ answers. answers ≡ answers_in bytes.now) }
{
    let Some((count, rest)) = bytes.split_first() else {
        return Ok(None);
    };
    if *count as usize > ANSWER_LIMIT {
        return Ok(None);
    }
    these_answers(alloc, *count, rest)
}

/// So many answers, and nothing behind them.
fn these_answers(alloc: Global, count: u8, bytes: &[u8]) -> Result<Option<Answers>, AllocError>
    ensures { IfOk result (λ answers. answers ≡ these_answers count bytes.now) }
{
    let mut answers = Vec::with_capacity(alloc, count as usize)?;
    let mut rest = bytes;
    let mut left = count;
    while left > 0 {
        let Some((answer, behind)) = answer_in(alloc, rest)? else {
            return Ok(None);
        };
        answers.push(answer)?;
        rest = behind;
        left -= 1;
    }
    if !rest.is_empty() {
        return Ok(None);
    }
    Ok(Some(Answers::from_vec(answers)))
}
