//! What one event makes and evaluates, counted.

ghost use Rattle.xf_engine_state.specs.Grown.{IsGrown};

use crate::fault::WorkFault;
use crate::tally::Tally;
use xf_base::limits::MADE_LIMIT;
use xf_def_machine::{LimitWord, Refusal};

/// Beyond all numbers of nodes that a form can take.
pub(crate) const NUMBERS: u128 = 1 << 120;

/// With so many nodes made and evaluations counted besides. No event counts evaluations beyond 64 bits: that is told as want of memory.
pub(crate) fn grown(tally: Tally, made: u128, count: u64) -> Result<Tally, WorkFault>
    ensures { IsGrown tally made count result }
{
    if made > MADE_LIMIT as u128 {
        return Err(WorkFault::Refused(Refusal::Limit(LimitWord::Made)));
    }
    let all = tally.made as u128 + made;
    if all > MADE_LIMIT as u128 {
        return Err(WorkFault::Refused(Refusal::Limit(LimitWord::Made)));
    }
    match tally.evaluated.checked_add(count) {
        Some(evaluated) => Ok(Tally {
            accepted: tally.accepted,
            turns: tally.turns,
            made: all as u64,
            evaluated,
        }),
        None => Err(WorkFault::Memory),
    }
}
