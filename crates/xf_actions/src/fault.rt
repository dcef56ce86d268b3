//! Why an event is refused.

ghost use Rattle.std.specs.Prelude.{◌≡◌, None, Some};
ghost use Rattle.xf_def_machine.specs.Refusal.{budget, depth};
ghost use Rattle.xf_actions.specs.Fault.{means};

use std::alloc::{AllocError, AllocFailed};
use xf_def_machine::{LimitWord, Refusal};
use xf_def_xpath::EvalFault;

/// Why an event is refused, or want of memory, which means no refusal.
#[derive(Debug, Drop)]
pub enum EventFault {
    Refused(Refusal),
    Memory,
}

impl EventFault {
    pub(crate) fn memory() -> EventFault
        ensures { means result ≡ None }
    {
        EventFault::Memory
    }

    /// No turn is left.
    pub(crate) fn budget() -> EventFault
        ensures { means result ≡ Some budget }
    {
        EventFault::Refused(Refusal::Budget)
    }

    /// Too many dispatches stand one in the other.
    pub(crate) fn depth() -> EventFault
        ensures { means result ≡ Some depth }
    {
        EventFault::Refused(Refusal::Depth)
    }
}

impl From<AllocError> for EventFault {
    ghost use Rattle.std.specs.Prelude.{◌≡◌};
    ghost use Rattle.xf_actions.specs.declared.fault.EventFault.TheVariants.{Memory};

    ghost from_gives = { λ _ fault. fault ≡ Memory };

    fn from(_: AllocError) -> Self {
        EventFault::Memory
    }
}

impl<T: Drop> From<AllocFailed<T>> for EventFault {
    ghost use Rattle.std.specs.Prelude.{◌≡◌};
    ghost use Rattle.xf_actions.specs.declared.fault.EventFault.TheVariants.{Memory};

    ghost from_gives = { λ _ fault. fault ≡ Memory };

    fn from(_: AllocFailed<T>) -> Self {
        EventFault::Memory
    }
}

impl From<EvalFault> for EventFault {
    ghost use Rattle.std.specs.Prelude.{◌≡◌};
    ghost use Rattle.xf_actions.specs.Fault.{fault_of};

    ghost from_gives = { λ fault given. given ≡ fault_of fault };

    fn from(fault: EvalFault) -> Self {
        match fault {
            EvalFault::Long => EventFault::Refused(Refusal::Limit(LimitWord::Long)),
            EvalFault::Memory => EventFault::Memory,
        }
    }
}
