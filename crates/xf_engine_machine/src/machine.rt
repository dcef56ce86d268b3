//! The form machine as who runs a form has it: events begin, are counted, and are kept or taken back; and what is tried before an event from outside
//! changes anything.

ghost use Rattle.std.specs.Prelude.{◌≡◌, ◌≤◌, ◌++◌, length, option_map, string_bytes, IfErr, IsTrue, OnOk};
ghost use Rattle.std.specs.List.{list_all};
ghost use Rattle.xf_base.specs.Limits.{answer_limit};
ghost use Rattle.xf_store.specs.Replay.{Covers};
ghost use Rattle.xf_store.specs.Replies.{is_short};
ghost use Rattle.xf_def_machine.specs.ControlText.{state_text};
ghost use Rattle.xf_def_machine.specs.Replies.{answers_in};
ghost use Rattle.xf_def_machine.specs.Step.{at_end, fresh, one_more};
ghost use Rattle.xf_def_form.specs.Formed.{profile};
ghost use Rattle.xf_actions.specs.Fault.{means};
ghost use Rattle.xf_actions.specs.Performs.{Reads};
ghost use Rattle.xf_actions.specs.Seen.{fired_of};
ghost use Rattle.xf_engine_machine.specs.Tried.{activation_tried, index_tried, node_tried};

use std::alloc::AllocError;
use xf_actions::{EventFault, Fired, World};
use xf_def_forest::NodeId;
use xf_def_machine::Note;
use xf_store::StoreCall;

/// The form machine, of which events from outside ask. Between events there are no notes and no calls of the store, and the next event has a whole
/// budget.
pub trait Machine: World + Drop {
    // ---- an event begins, and ends

    /// An event begins, with a whole budget, no notes and no calls of the store. Takes no memory.
    fn begin_event(&mut self)
        ensures now { Self.state self.new ≡ fresh profile (Self.state self.old) }
        ensures kept { Self.kept self.new ≡ Self.kept self.old };

    /// Counts the event that is handled as accepted. No run counts beyond 64 bits: that is told as want of memory.
    fn count_event(&mut self) -> Result<(), EventFault>
        ensures now { OnOk result (Self.state self.new ≡ one_more (Self.state self.old)) }
        ensures kept { Self.kept self.new ≡ Self.kept self.old }
        ensures calls { (Self.state self.new).calls ≡ (Self.state self.old).calls }
        ensures fault { IfErr result (λ fault. fault ≡ EventFault.Memory) };

    /// Keeps what stands: detached trees are dropped, and the next event has a whole budget, no notes and no calls of the store. Takes no memory.
    fn commit(&mut self)
        ensures now { Self.state self.new ≡ at_end profile (Self.state self.old) }
        ensures kept { Self.kept self.new ≡ Self.state self.new };

    /// What was kept stands again. Takes no memory.
    fn roll_back(&mut self)
        ensures now { Self.state self.new ≡ Self.kept self.old }
        ensures kept { Self.kept self.new ≡ Self.kept self.old };

    // ---- what the event has done so far

    /// Its notes, in order.
    fn notes(&self) -> &[Note]
        ensures { result.now ≡ (Self.state self.now).notes };

    /// Its calls of the store, in order, each with its answer. The answers may be kept with the event: they are few, and none is longer than a get gives.
    fn store_calls(&self) -> &[StoreCall]
        ensures is { result.now ≡ (Self.state self.now).calls }
        ensures few { length (answers_in (Self.state self.now).calls) ≤ answer_limit }
        ensures short { IsTrue (list_all is_short (answers_in (Self.state self.now).calls)) };

    /// The answers of its calls of the store cover them: each call gets the answer at its place.
    fn calls_are_covered(&self)
        ensures { Covers (answers_in (Self.state self.now).calls) (Self.state self.now).calls };

    /// How many evaluations it made.
    fn evaluated(&self) -> u64
        ensures { result ≡ (Self.state self.now).evaluated };

    // ---- the state

    /// How many events were accepted.
    fn accepted(&self) -> u64
        ensures { result ≡ (Self.state self.now).accepted };

    /// Appends the text of the state.
    fn push_text(&self, text: &mut String) -> Result<(), AllocError>
        ensures { OnOk result (string_bytes text.new ≡ string_bytes text.old ++ state_text profile (Self.state self.now)) };

    // ---- what is tried before an event from outside changes anything

    /// The node that the copy of a control in the rows that these numbers name binds, where this text may be set from outside.
    fn node_to_set(
        &self,
        element: u32,
        rows: &[u64],
        text: &str,
    ) -> Result<Option<NodeId>, EventFault>
        ensures { Reads means (option_map (λ n. n.number)) (Self.state self.now) result (node_tried profile element rows.now text.now (Self.state self.now)) };

    /// The event that tells the copy of a trigger in the rows that these numbers name, where it is enabled.
    fn activation(&self, element: u32, rows: &[u64]) -> Result<Fired, EventFault>
        ensures { Reads means fired_of (Self.state self.now) result (activation_tried profile element rows.now (Self.state self.now)) };

    /// Refuses a number that is none of the rows of a repeat.
    fn try_index(&self, repeat: u32, number: u64) -> Result<(), EventFault>
        ensures { Reads means (λ u. Self.state self.now) (Self.state self.now) result (index_tried profile repeat number (Self.state self.now)) };

    /// What it is given beside a form is what each form is given.
    ghost is_given: { Self.profile ≡ profile };
}
