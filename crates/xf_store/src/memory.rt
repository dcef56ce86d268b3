//! A store in memory, which tells what it holds and its calls, and of which calls may be made to fail.
ghost use Rattle.std.specs.Prelude.{◌≡◌, ◌<◌, ◌∷◌, ◌++◌, [], length, Some, None, IfOk, IfSome, OnOk, OnErr};
ghost use Rattle.std.specs.Option.{option_map, option_copied};
ghost use Rattle.std.specs.Bool.{OnTrue, OnFalse};
ghost use Rattle.xf_base.specs.Faults.{HasCause};
ghost use Rattle.xf_io.specs.Failing.{after_call};
ghost use Rattle.xf_store.specs.Held.{found, put_under, place_from, Puts, Gets, Leaves};
ghost use Rattle.xf_store.specs.Calls.{Lists, GetLists, put_call};
ghost use Rattle.xf_store.specs.Replay.{GetUses};
ghost use Rattle.xf_store.specs.Causes.{HasGetCause, PutFails, GetFails};
ghost use Rattle.xf_store.specs.declared.call.StoreCall.{StoreCall};

use crate::fault::counted;
use crate::{Answer, Asked, Calls, GetFault, Got, Named, Store, StoreCall};
use std::alloc::{AllocError, Global};
use std::marker::Model;
use xf_base::Items;
use xf_base::limits::FOUND_LIMIT;
use xf_io::{Bytes, Failed, FailingCalls};

/// A store in memory. Want of memory in a put fails the call, is counted, and ends the list of calls, as
/// does a call that finds no memory to be listed.
#[derive(Drop)]
pub struct MemoryStore {
    alloc: Global,
    held: Items<Named>,
    calls: Option<Calls>,
    failing: FailingCalls,
    failed: u64,
}

impl Model for MemoryStore {
    ghost use Rattle.xf_store.specs.Objects.{Telling};

    ghost Value = { Telling };

    ghost view = { λ s. record { held = s.held; calls = s.calls; failing = s.failing; faults = s.failed } };
}

impl MemoryStore {
    /// An empty store. The calls whose numbers are listed fail, the first being 0, and no other, unless memory is wanting.
    pub fn new(alloc: Global, fails: Vec<u64>) -> MemoryStore
        ensures { result ≡ record { held = []; calls = Some []; failing = record { fails = fails.items; made = 0 }; faults = 0 } }
    {
        MemoryStore {
            alloc,
            held: Items::new(alloc),
            calls: Some(Items::new(alloc)),
            failing: FailingCalls::new(fails),
            failed: 0,
        }
    }

    /// What stands under each name.
    pub fn held(&self) -> &[Named]
        ensures { result.now ≡ self.now.held }
    {
        self.held.as_slice()
    }

    /// The calls that were made, in order, those that failed among them, or `None` where one found no
    /// memory to be listed.
    pub fn calls(&self) -> Option<&Calls>
        ensures { option_copied result ≡ self.now.calls }
    {
        self.calls.as_ref()
    }
}

impl Store for MemoryStore {
    ghost held = { λ s. Some s.held };

    ghost calls = { λ s. s.calls };

    ghost to_come = { λ _. None };

    ghost faults = { λ s. s.faults };

    fn put(&mut self, name: &str, bytes: &[u8]) -> Result<(), Failed>
        ensures held { Puts (Some self.old.held) (Some self.new.held) name.now bytes.now result }
        ensures calls { Lists self.old.calls self.new.calls (put_call name.now bytes.now result) }
        ensures cause { HasCause self.old.faults self.new.faults result }
        ensures fails { PutFails self.old.failing self.new.calls self.old.held self.new.held result }
        ensures failing { self.new.failing ≡ after_call self.old.failing }
    {
        let fails = self.failing.fails_now();
        if fails {
            list_put(self.alloc, &mut self.calls, name, bytes, Answer::Failed);
            return Err(counted(&mut self.failed));
        }
        if put_named(self.alloc, &mut self.held, name.as_bytes(), bytes).is_err() {
            self.calls = None;
            return Err(counted(&mut self.failed));
        }
        if list_put(self.alloc, &mut self.calls, name, bytes, Answer::PutDone) {
            return Ok(());
        }
        Err(counted(&mut self.failed))
    }

    fn get(&mut self, name: &str, into: &mut Bytes) -> Result<Got, GetFault>
        ensures answer { Gets (Some self.old.held) name.now result into.new }
        ensures into { Leaves result into.old into.new }
        ensures held { self.new.held ≡ self.old.held }
        ensures calls { GetLists self.old.calls self.new.calls name.now result into.new }
        ensures to_come { GetUses None None result into.new }
        ensures cause { HasGetCause self.old.faults self.new.faults result }
        ensures fails { GetFails self.old.failing result }
        ensures failing { self.new.failing ≡ after_call self.old.failing }
    {
        if self.failing.fails_now() {
            list_get(self.alloc, &mut self.calls, name, Answer::Failed)?;
            counted(&mut self.failed);
            return Err(GetFault::Failed);
        }
        let Some(found) = found_in(self.held.as_slice(), name.as_bytes()) else {
            list_get(self.alloc, &mut self.calls, name, Answer::Absent)?;
            return Ok(Got::Absent);
        };
        if found.len() > FOUND_LIMIT {
            list_get(self.alloc, &mut self.calls, name, Answer::TooLong)?;
            return Ok(Got::TooLong);
        }
        let copy = copied(self.alloc, found)?;
        let listed = Answer::Found(copied(self.alloc, found)?);
        list_get(self.alloc, &mut self.calls, name, listed)?;
        *into = copy;
        Ok(Got::Found)
    }
}

fn copied(alloc: Global, bytes: &[u8]) -> Result<Bytes, AllocError>
    ensures { IfOk result (λ copy. copy ≡ bytes.now) }
{
    Ok(Bytes::from_vec(Vec::from_slice(alloc, bytes)?))
}

/// The place of a name.
fn place_of(held: &[Named], name: &[u8]) -> Option<usize>
    ensures place { result ≡ place_from 0 name.now held.now }
    ensures within { IfSome result (λ at. at < length held.now) }
{
    for (at, named) in held.iter().enumerate() {
        if named.name.as_slice() == name {
            return Some(at);
        }
    }
    None
}

/// The bytes under a name.
fn found_in<'a>(held: &'a [Named], name: &[u8]) -> Option<&'a [u8]>
    ensures { option_map (λ bytes. bytes.now) result ≡ found name.now held.now }
{
    for named in held {
        if named.name.as_slice() == name {
            return Some(named.bytes.as_slice());
        }
    }
    None
}

/// Puts bytes under a name.
fn put_named(
    alloc: Global,
    held: &mut Items<Named>,
    name: &[u8],
    bytes: &[u8],
) -> Result<(), AllocError>
    ensures ok { OnOk result (held.new ≡ put_under name.now bytes.now held.old) }
    ensures err { OnErr result (held.new ≡ held.old) }
{
    let named = Named {
        name: copied(alloc, name)?,
        bytes: copied(alloc, bytes)?,
    };
    if let Some(at) = place_of(held.as_slice(), name) {
        held.set(at, named);
        return Ok(());
    }
    held.push(named)
}

/// Lists a call, where calls are listed.
fn list_call(calls: &mut Option<Calls>, call: StoreCall) -> Result<(), AllocError>
    ensures ok { OnOk result (calls.new ≡ option_map (λ list. list ++ call ∷ []) calls.old) }
    ensures err { OnErr result (calls.new ≡ calls.old) }
{
    match calls {
        Some(calls) => calls.push(call),
        None => Ok(()),
    }
}

fn try_list_put(
    alloc: Global,
    calls: &mut Option<Calls>,
    name: &str,
    bytes: &[u8],
    answer: Answer,
) -> Result<(), AllocError>
    ensures { OnOk result (calls.new ≡ option_map (λ list. list ++ (record { name = name.now; asked = Asked.Put bytes.now; answer = answer }) ∷ []) calls.old) }
{
    let call = StoreCall {
        name: copied(alloc, name.as_bytes())?,
        asked: Asked::Put(copied(alloc, bytes)?),
        answer,
    };
    list_call(calls, call)
}

/// Lists a put, or ends the list where there is no memory for it, and says which.
fn list_put(
    alloc: Global,
    calls: &mut Option<Calls>,
    name: &str,
    bytes: &[u8],
    answer: Answer,
) -> bool
    ensures listed { OnTrue result (calls.new ≡ option_map (λ list. list ++ (record { name = name.now; asked = Asked.Put bytes.now; answer = answer }) ∷ []) calls.old) }
    ensures ended { OnFalse result (calls.new ≡ None) }
{
    if try_list_put(alloc, calls, name, bytes, answer).is_ok() {
        return true;
    }
    *calls = None;
    false
}

/// Lists a get.
fn list_get(
    alloc: Global,
    calls: &mut Option<Calls>,
    name: &str,
    answer: Answer,
) -> Result<(), AllocError>
    ensures ok { OnOk result (calls.new ≡ option_map (λ list. list ++ (record { name = name.now; asked = Asked.Get; answer = answer }) ∷ []) calls.old) }
    ensures err { OnErr result (calls.new ≡ calls.old) }
{
    let call = StoreCall {
        name: copied(alloc, name.as_bytes())?,
        asked: Asked::Get,
        answer,
    };
    list_call(calls, call)
}
