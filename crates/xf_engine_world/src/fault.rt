//! Why what an engine works on refuses, as the fault of an event.

ghost use Rattle.std.specs.Prelude.{◌≡◌};
ghost use Rattle.xf_engine_world.specs.Fault.{event_of, fault_of_work};

use xf_actions::EventFault;
use xf_engine_state::WorkFault;

/// The answer of a call on what an engine works on, as one of an event.
pub(crate) fn as_event<T>(done: Result<T, WorkFault>) -> Result<T, EventFault>
    ensures { result ≡ event_of done }
{
    match done {
        Ok(value) => Ok(value),
        Err(fault) => Err(event_fault(fault)),
    }
}

/// The same for its fault.
pub(crate) fn event_fault(fault: WorkFault) -> EventFault
    ensures { result ≡ fault_of_work fault }
{
    match fault {
        WorkFault::Refused(refusal) => EventFault::Refused(refusal),
        WorkFault::Memory => EventFault::Memory,
    }
}
