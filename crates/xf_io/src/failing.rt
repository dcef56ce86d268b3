//! Which calls of an object in memory are to fail.

ghost use Rattle.std.specs.Prelude.{◌≡◌};
ghost use Rattle.xf_io.specs.Failing.{fails_next, after_call};

use std::marker::Model;

/// The numbers of the calls that are to fail, the first call being 0, and how many were made.
#[derive(Debug, Drop)]
pub struct FailingCalls {
    fails: Vec<u64>,
    made: u64,
}

impl Model for FailingCalls {
    ghost use Rattle.xf_io.specs.Failing.{Failing};

    ghost Value = { Failing };

    ghost view = { λ c. record { fails = c.fails.items; made = c.made } };
}

impl FailingCalls {
    /// No call was made yet.
    pub fn new(fails: Vec<u64>) -> Self
        ensures { result ≡ record { fails = fails.items; made = 0 } }
    {
        FailingCalls { fails, made: 0 }
    }

    /// Makes a call, and says whether it is to fail.
    pub fn fails_now(&mut self) -> bool
        ensures fails { result ≡ fails_next self.old }
        ensures made { self.new ≡ after_call self.old }
    {
        let call = self.made;
        self.made = call.saturating_add(1);
        self.fails.contains(&call)
    }
}
