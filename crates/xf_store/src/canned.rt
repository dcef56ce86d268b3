//! A store that answers from kept answers.
ghost use Rattle.std.specs.Prelude.{◌≡◌, ◌↔◌, ◌&&◌, [], true, Some, None, IsTrue, drop, slice_get};
ghost use Rattle.std.specs.List.{list_all};
ghost use Rattle.xf_base.specs.Faults.{HasCause};
ghost use Rattle.xf_store.specs.Replies.{is_short, put_answer, get_answer};
ghost use Rattle.xf_store.specs.Held.{Leaves};
ghost use Rattle.xf_store.specs.Causes.{HasGetCause};
ghost use Rattle.xf_store.specs.Replay.{fits_put, fits_get, answer_at, next_fits, Uses, GetUses, got_by};

use crate::fault::counted;
use crate::{Answer, Answers, GetFault, Got, Store};
use std::marker::Model;
use xf_io::{Bytes, Failed};

/// A store that gives kept answers by place, and puts nothing. A call that does not fit the answer at its
/// place, or finds none there, fails. An event has few answers, so that to take the first is cheap.
#[derive(Drop)]
pub struct Canned {
    left: Answers,
    /// Whether each call found an answer that fits it.
    is_exact: bool,
    failed: u64,
}

impl Model for Canned {
    ghost use Rattle.std.specs.Prelude.{IsTrue};
    ghost use Rattle.std.specs.List.{list_all};
    ghost use Rattle.xf_store.specs.Objects.{Replaying};
    ghost use Rattle.xf_store.specs.Replies.{is_short};

    ghost Value = { Replaying };

    ghost view = { λ c. record { to_come = c.left; is_exact = c.is_exact; faults = c.failed } };

    ghost invariant = { λ c. IsTrue (list_all is_short c.left) };
}

impl Canned {
    pub fn new(answers: Answers) -> Canned
        requires { IsTrue (list_all is_short answers) }
        ensures { result ≡ record { to_come = answers; is_exact = true; faults = 0 } }
    {
        Canned {
            left: answers,
            is_exact: true,
            failed: 0,
        }
    }

    /// Whether every answer was used and each fitted its call.
    pub fn is_spent(&self) -> bool
        ensures { IsTrue result ↔ (self.now.to_come ≡ [] × IsTrue self.now.is_exact) }
    {
        self.is_exact && self.left.is_empty()
    }
}

impl Store for Canned {
    ghost held = { λ _. None };

    ghost calls = { λ _. None };

    ghost to_come = { λ c. Some c.to_come };

    ghost faults = { λ c. c.faults };

    fn put(&mut self, _name: &str, _bytes: &[u8]) -> Result<(), Failed>
        ensures answer { put_answer result ≡ answer_at fits_put self.old.to_come 0 }
        ensures left { self.new.to_come ≡ drop 1 self.old.to_come }
        ensures exact { self.new.is_exact ≡ (self.old.is_exact && next_fits fits_put self.old.to_come) }
        ensures to_come { Uses fits_put (Some self.old.to_come) (Some self.new.to_come) (put_answer result) }
        ensures cause { HasCause self.old.faults self.new.faults result }
    {
        match next_of(&mut self.left) {
            Some(Answer::PutDone) => Ok(()),
            Some(Answer::Failed) => Err(counted(&mut self.failed)),
            _ => {
                self.is_exact = false;
                Err(counted(&mut self.failed))
            }
        }
    }

    fn get(&mut self, _name: &str, into: &mut Bytes) -> Result<Got, GetFault>
        ensures value { result ≡ got_by (answer_at fits_get self.old.to_come 0) }
        ensures answer { get_answer result into.new ≡ answer_at fits_get self.old.to_come 0 }
        ensures left { self.new.to_come ≡ drop 1 self.old.to_come }
        ensures exact { self.new.is_exact ≡ (self.old.is_exact && next_fits fits_get self.old.to_come) }
        ensures into { Leaves result into.old into.new }
        ensures to_come { GetUses (Some self.old.to_come) (Some self.new.to_come) result into.new }
        ensures cause { HasGetCause self.old.faults self.new.faults result }
    {
        match next_of(&mut self.left) {
            Some(Answer::Found(bytes)) => {
                *into = bytes;
                Ok(Got::Found)
            }
            Some(Answer::Absent) => Ok(Got::Absent),
            Some(Answer::TooLong) => Ok(Got::TooLong),
            Some(Answer::Failed) => {
                counted(&mut self.failed);
                Err(GetFault::Failed)
            }
            _ => {
                self.is_exact = false;
                counted(&mut self.failed);
                Err(GetFault::Failed)
            }
        }
    }
}

/// Takes the next answer.
fn next_of(left: &mut Answers) -> Option<Answer>
    ensures answer { result ≡ slice_get left.old 0 }
    ensures rest { left.new ≡ drop 1 left.old }
{
    if left.is_empty() {
        return None;
    }
    Some(left.remove(0))
}
