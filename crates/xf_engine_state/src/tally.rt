//! What is counted.

ghost use Rattle.std.specs.Prelude.{◌≡◌, ◌+◌, IfSome};
ghost use Rattle.xf_engine_state.specs.Tally.{begun, spent};

use xf_base::limits::TURN_LIMIT;

/// How many events were accepted; and of one event the turns that are left, the nodes made, the evaluations counted.
#[derive(Clone, Copy, Debug)]
pub struct Tally {
    pub accepted: u64,
    pub turns: u32,
    pub made: u64,
    pub evaluated: u64,
}

impl Tally {
    /// The next event has a whole budget.
    pub(crate) fn begun(self) -> Self
        ensures { result ≡ begun self }
    {
        Tally {
            accepted: self.accepted,
            turns: TURN_LIMIT,
            made: 0,
            evaluated: 0,
        }
    }

    /// With one turn less, unless none is left.
    pub(crate) fn spent(self) -> Option<Self>
        ensures { result ≡ spent self }
    {
        if self.turns == 0 {
            return None;
        }
        Some(Tally {
            accepted: self.accepted,
            turns: self.turns - 1,
            made: self.made,
            evaluated: self.evaluated,
        })
    }

    /// With one accepted event more. There is none beyond 64 bits.
    pub(crate) fn counted(self) -> Option<Self>
        ensures { IfSome result (λ tally. tally ≡ record self { accepted = self.accepted + 1 }) }
    {
        if self.accepted == u64::MAX {
            return None;
        }
        Some(Tally {
            accepted: self.accepted + 1,
            turns: self.turns,
            made: self.made,
            evaluated: self.evaluated,
        })
    }
}
