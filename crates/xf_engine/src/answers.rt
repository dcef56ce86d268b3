//! The answers of the store to the calls of an event.

ghost use Rattle.std.specs.Prelude.{◌≡◌, IfOk};
ghost use Rattle.xf_def_machine.specs.Replies.{answers_in};

use std::alloc::{AllocError, Global};
use xf_io::Bytes;
use xf_store::{Answer, Answers, StoreCall};

/// The answers to these calls, in order.
pub(crate) fn answers_to(alloc: Global, calls: &[StoreCall]) -> Result<Answers, AllocError>
    ensures { IfOk result (λ answers. answers ≡ answers_in calls.now) }
{
    let mut answers = Answers::new(alloc);
    for call in calls {
        answers.push(copied(alloc, &call.answer)?)?;
    }
    Ok(answers)
}

fn copied(alloc: Global, answer: &Answer) -> Result<Answer, AllocError>
    ensures { IfOk result (λ copy. copy ≡ answer.now) }
{
    match answer {
        Answer::PutDone => Ok(Answer::PutDone),
        Answer::Failed => Ok(Answer::Failed),
        Answer::Found(bytes) => {
            let found = Vec::from_slice(alloc, bytes.as_slice())?;
            Ok(Answer::Found(Bytes::from_vec(found)))
        }
        Answer::Absent => Ok(Answer::Absent),
        Answer::TooLong => Ok(Answer::TooLong),
    }
}
