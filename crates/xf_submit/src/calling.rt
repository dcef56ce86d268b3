//! The call of the store.

ghost use Rattle.std.specs.Prelude.{◌≡◌, IfOk, IsTrue, List, OnErr};
ghost use Rattle.xf_base.specs.Gives.{Gives};
ghost use Rattle.xf_base.specs.Limits.{answer_limit};
ghost use Rattle.xf_store.specs.declared.answers.Answer.{Answer};
ghost use Rattle.xf_store.specs.Called.{Called};
ghost use Rattle.xf_store.specs.Replay.{Covers};
ghost use Rattle.xf_submit.specs.Calling.{AreMade, CallsOnce, exchanged, is_answered};

use std::alloc::{AllocError, AllocFailed, Global};
use xf_base::limits::ANSWER_LIMIT;
use xf_io::Bytes;
use xf_store::{Answer, Asked, Calls, GetFault, Got, Store, StoreCall};

/// Why the store is not called.
#[derive(Clone, Copy, Debug, PartialEq, Eq)]
pub enum CallFault {
    /// All calls of the event are made.
    Many,
    Memory,
}

impl From<AllocError> for CallFault {
    ghost use Rattle.std.specs.Prelude.{◌≡◌};
    ghost use Rattle.xf_submit.specs.declared.calling.CallFault.TheVariants.{Memory};

    ghost from_gives = { λ _ e. e ≡ Memory };

    fn from(_: AllocError) -> Self {
        CallFault::Memory
    }
}

impl<T: Drop> From<AllocFailed<T>> for CallFault {
    ghost use Rattle.std.specs.Prelude.{◌≡◌};
    ghost use Rattle.xf_submit.specs.declared.calling.CallFault.TheVariants.{Memory};

    ghost from_gives = { λ _ e. e ≡ Memory };

    fn from(_: AllocFailed<T>) -> Self {
        CallFault::Memory
    }
}

/// Calls the store once and puts the call, with its answer, behind those of the event. Of the answers of the event it gets the one at its place.
/// After an error the store is not called. A get that finds no memory for what stands in the store is no call.
pub fn exchange<S: Store>(
    alloc: Global,
    resource: &str,
    asked: Asked,
    calls: &mut Calls,
    store: &mut S,
) -> Result<(), CallFault>
    ensures done { (answers : List Answer) → Covers answers calls.new → Gives CallFault.Memory (λ u. calls.new) result (exchanged answer_limit answers resource.now asked calls.old) }
    ensures store { Called (S.calls store.old, S.to_come store.old) (S.calls store.new, S.to_come store.new) calls.old calls.new }
    ensures made { AreMade calls.old → AreMade calls.new }
    ensures err { OnErr result (calls.new ≡ calls.old) }
{
    let at = calls.len();
    if at >= ANSWER_LIMIT {
        return Err(CallFault::Many);
    }
    let name = Bytes::from_vec(Vec::from_slice(alloc, resource.as_bytes())?);
    // Room for the call is made before it, so that each call that is made is noted.
    calls.push(unanswered(alloc))?;
    match answer_of(alloc, resource, &asked, store) {
        Ok(answer) => {
            let call = StoreCall {
                name,
                asked,
                answer,
            };
            calls.set(at, call);
            Ok(())
        }
        Err(_) => {
            let _ = calls.pop();
            Err(CallFault::Memory)
        }
    }
}

/// A call that is not made yet.
fn unanswered(alloc: Global) -> StoreCall {
    StoreCall {
        name: Bytes::new(alloc),
        asked: Asked::Get,
        answer: Answer::Failed,
    }
}

/// What the store answers.
fn answer_of<S: Store>(
    alloc: Global,
    resource: &str,
    asked: &Asked,
    store: &mut S,
) -> Result<Answer, AllocError>
    ensures store { CallsOnce (S.calls store.old, S.to_come store.old) (S.calls store.new, S.to_come store.new) resource.now asked.now result }
    ensures answered { IfOk result (λ answer. IsTrue (is_answered asked.now answer)) }
{
    match asked {
        Asked::Put(bytes) => match store.put(resource, bytes.as_slice()) {
            Ok(()) => Ok(Answer::PutDone),
            Err(_) => Ok(Answer::Failed),
        },
        Asked::Get => answer_of_get(alloc, resource, store),
    }
}

fn answer_of_get<S: Store>(
    alloc: Global,
    resource: &str,
    store: &mut S,
) -> Result<Answer, AllocError>
    ensures store { CallsOnce (S.calls store.old, S.to_come store.old) (S.calls store.new, S.to_come store.new) resource.now Asked.Get result }
    ensures answered { IfOk result (λ answer. IsTrue (is_answered Asked.Get answer)) }
{
    let mut into = Bytes::new(alloc);
    match store.get(resource, &mut into) {
        Ok(Got::Found) => Ok(Answer::Found(into)),
        Ok(Got::Absent) => Ok(Answer::Absent),
        Ok(Got::TooLong) => Ok(Answer::TooLong),
        Err(GetFault::Failed) => Ok(Answer::Failed),
        Err(GetFault::Memory) => Err(AllocError),
    }
}
