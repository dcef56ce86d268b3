//! The calls of the store in an event.

ghost use Rattle.std.specs.Prelude.{◌≡◌, ◌≤◌, ◌-◌, List, [], IsTrue, OnErr, length, option_map, slice_get};
ghost use Rattle.std.specs.List.{list_all};
ghost use Rattle.xf_base.specs.Gives.{Gives};
ghost use Rattle.xf_base.specs.Limits.{answer_limit};
ghost use Rattle.xf_def_machine.specs.Replies.{answers_in};
ghost use Rattle.xf_store.specs.declared.answers.Answer.{Answer};
ghost use Rattle.xf_store.specs.Called.{Called};
ghost use Rattle.xf_store.specs.Replay.{Covers};
ghost use Rattle.xf_store.specs.Replies.{is_short};
ghost use Rattle.xf_submit.specs.Calling.{exchanged};

use std::alloc::Global;
use std::marker::Model;
use xf_store::{Asked, Calls, Store, StoreCall};
use xf_submit::{CallFault, exchange};

/// The calls of the store in an event, in order: few, each with an answer that fits what it asked for and is no longer than a get gives.
#[derive(Drop)]
pub struct CallsMade {
    calls: Calls,
}

impl Model for CallsMade {
    ghost use Rattle.std.specs.Prelude.{List};
    ghost use Rattle.xf_store.specs.declared.call.StoreCall.{StoreCall};
    ghost use Rattle.xf_submit.specs.Calling.{AreMade};

    ghost Value = { List StoreCall };

    ghost view = { λ l. l.calls };

    ghost invariant = { λ l. AreMade l.calls };
}

impl CallsMade {
    pub(crate) fn new(alloc: Global) -> CallsMade
        ensures { result ≡ [] }
    {
        CallsMade {
            calls: Calls::new(alloc),
        }
    }

    pub(crate) fn as_slice(&self) -> &[StoreCall]
        ensures { result.now ≡ self.now }
    {
        self.calls.as_slice()
    }

    /// The last one.
    pub(crate) fn last(&self) -> Option<&StoreCall>
        ensures { option_map (λ call. call.now) result ≡ slice_get self.now (length self.now - 1) }
    {
        self.calls.as_slice().last()
    }

    /// Calls the store once, and puts the call behind these.
    pub(crate) fn exchange<S: Store>(
        &mut self,
        alloc: Global,
        resource: &str,
        asked: Asked,
        store: &mut S,
    ) -> Result<(), CallFault>
        ensures done { (answers : List Answer) → Covers answers self.new → Gives CallFault.Memory (λ u. self.new) result (exchanged answer_limit answers resource.now asked self.old) }
        ensures store { Called (S.calls store.old, S.to_come store.old) (S.calls store.new, S.to_come store.new) self.old self.new }
        ensures err { OnErr result (self.new ≡ self.old) }
    {
        exchange(alloc, resource, asked, &mut self.calls, store)
    }

    /// Drops all calls. It takes no memory.
    pub(crate) fn clear(&mut self)
        ensures { self.new ≡ [] }
    {
        drop_all(&mut self.calls);
    }

    /// Their answers cover them: each call gets the answer at its place.
    pub(crate) fn are_covered(&self)
        ensures { Covers (answers_in self.now) self.now }
    {
        let _ = &self.calls;
    }

    /// Their answers may be kept with an event: they are few, and none is longer than a get gives.
    pub(crate) fn are_few(&self)
        ensures few { length (answers_in self.now) ≤ answer_limit }
        ensures short { IsTrue (list_all is_short (answers_in self.now)) }
    {
        let _ = &self.calls;
    }
}

fn drop_all(calls: &mut Calls)
    ensures { calls.new ≡ [] }
{
    while !calls.is_empty() {
        let _ = calls.pop();
    }
}
