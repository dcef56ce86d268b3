//! Answers of a store, copied and compared.
ghost use Rattle.std.specs.Prelude.{◌≡◌, IfOk};
ghost use Rattle.xf_def_machine.specs.Run.{same_answer};
ghost use Rattle.xf_session.specs.Replaying.{same_answers};

use std::alloc::{AllocError, Global};
use xf_io::Bytes;
use xf_store::{Answer, Answers};

/// A copy of these answers.
pub(crate) fn copy_of(alloc: Global, answers: &Answers) -> Result<Answers, AllocError>
    ensures { IfOk result (λ copy. copy ≡ answers.now) }
{
    let mut copy = Vec::with_capacity(alloc, answers.len())?;
    for answer in answers.as_slice() {
        copy.push(copy_of_one(alloc, answer)?)?;
    }
    Ok(Answers::from_vec(copy))
}

fn copy_of_one(alloc: Global, answer: &Answer) -> Result<Answer, AllocError>
    ensures { IfOk result (λ copy. copy ≡ answer.now) }
{
    match answer {
        Answer::PutDone => Ok(Answer::PutDone),
        Answer::Failed => Ok(Answer::Failed),
        Answer::Found(bytes) => {
            let bytes = Vec::from_slice(alloc, bytes.as_slice())?;
            Ok(Answer::Found(Bytes::from_vec(bytes)))
        }
        Answer::Absent => Ok(Answer::Absent),
        Answer::TooLong => Ok(Answer::TooLong),
    }
}

/// Whether the answers are the same, one by one.
pub(crate) fn are_same(given: &[Answer], kept: &[Answer]) -> bool
    ensures { result ≡ same_answers given.now kept.now }
{
    let mut left = given;
    let mut others = kept;
    while let (Some((answer, more)), Some((other, rest))) = (
        left.split_first(),
        others.split_first(),
    ) {
        if !is_same(answer, other) {
            return false;
        }
        left = more;
        others = rest;
    }
    left.is_empty() && others.is_empty()
}

fn is_same(answer: &Answer, other: &Answer) -> bool
    ensures { result ≡ same_answer answer.now other.now }
{
    match (answer, other) {
        (Answer::PutDone, Answer::PutDone) => true,
        (Answer::Failed, Answer::Failed) => true,
        (Answer::Found(bytes), Answer::Found(others)) => bytes.as_slice() == others.as_slice(),
        (Answer::Absent, Answer::Absent) => true,
        (Answer::TooLong, Answer::TooLong) => true,
        _ => false,
    }
}
