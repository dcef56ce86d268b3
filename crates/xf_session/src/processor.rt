//! Who runs a form.
ghost use Rattle.std.specs.Prelude.{◌≡◌, ◌++◌, [], Some, None, IsSome, IfOk, OnOk, IsTrue, string_bytes};
ghost use Rattle.xf_journal.specs.Entry.{is_within};
ghost use Rattle.xf_def_machine.specs.ControlText.{state_text};
ghost use Rattle.xf_def_machine.specs.Replies.{answers_in};
ghost use Rattle.xf_def_machine.specs.Step.{step};
ghost use Rattle.xf_def_form.specs.Formed.{profile};
ghost use Rattle.xf_session.specs.Processing.{Posts, Starts, kept_after};

use crate::EventFault;
use std::alloc::AllocError;
use xf_line::Event;
use xf_store::{Answers, Store};

/// Who runs a form (XForms 1.1, section 1.3): it takes an event, which is pending then until it is kept or taken back. So is the start.
pub trait Processor: Drop {
    ghost use Rattle.std.specs.Prelude.{List};
    ghost use Rattle.std.specs.declared.option.Option.{Option};
    ghost use Rattle.xf_store.specs.declared.call.StoreCall.{StoreCall};
    ghost use Rattle.xf_def_machine.specs.State.{State};

    /// The state of the form machine: while an event is pending, as it stands once that is kept.
    ghost state: { Self → State };

    /// The state that is given back, while an event is pending.
    ghost kept: { Self → Option State };

    /// The calls of the store that the event made which is pending.
    ghost calls: { Self → List StoreCall };

    /// Does an event, over a store. Where it is accepted its lines are appended: the notes, how many events were accepted, and how many evaluations
    /// count; it is pending then. An `Err` leaves everything as it was but the text, of which nothing is told then, and the store.
    fn post<S: Store>(
        &mut self,
        event: &Event,
        store: &mut S,
        text: &mut String,
    ) -> Result<(), EventFault>
        requires { kept self.old ≡ None }
        ensures done { Posts result (state self.old) (state self.new) (calls self.new) (S.calls store.old, S.to_come store.old) (S.calls store.new, S.to_come store.new)
            (string_bytes text.old) (string_bytes text.new) (step profile (state self.old) event.now) }
        ensures kept { kept self.new ≡ kept_after result (state self.old) };

    /// Appends the text of the state. It is for who has no event pending.
    fn push_state(&self, text: &mut String) -> Result<(), AllocError>
        requires { kept self.now ≡ None }
        ensures { OnOk result (string_bytes text.new ≡ string_bytes text.old ++ state_text profile (state self.now)) };

    /// What the store answered to the calls of the event that is pending, in order.
    fn answers(&self) -> Result<Answers, AllocError>
        requires { IsSome (kept self.now) }
        ensures is { IfOk result (λ answers. answers ≡ answers_in (calls self.now)) }
        ensures within { IfOk result (λ answers. IsTrue (is_within [] answers)) };

    /// Keeps the event that is pending.
    fn commit(&mut self)
        ensures same { state self.new ≡ state self.old }
        ensures kept { kept self.new ≡ None };

    /// Takes the event back that is pending.
    fn roll_back(&mut self)
        requires { IsSome (kept self.old) }
        ensures state { kept self.old ≡ Some (state self.new) }
        ensures kept { kept self.new ≡ None };
}

/// A form that is constructed, and who runs it once it is started.
pub trait Starting<P: Processor>: Drop {
    ghost use Rattle.xf_def_machine.specs.State.{State};

    /// The state that construction left.
    ghost first: { Self → State };

    /// Starts the form (XForms 1.1, section 4.2): an event of its own, which is pending then. Appends the lines of its notes. After an `Err` nothing
    /// is told of the text.
    fn start<S: Store>(self, store: &mut S, text: &mut String) -> Result<P, EventFault>
        ensures done { Starts P.state P.kept P.calls result (first self) (S.calls store.old, S.to_come store.old) (S.calls store.new, S.to_come store.new)
            (string_bytes text.old) (string_bytes text.new) };
}
