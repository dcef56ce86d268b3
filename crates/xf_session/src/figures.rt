//! What is told of a form at work beside its replies.
ghost use Rattle.std.specs.Prelude.{◌≡◌, [], None, IfOk, string_bytes};
ghost use Rattle.xf_def_machine.specs.Step.{step};
ghost use Rattle.xf_def_form.specs.Formed.{profile};
ghost use Rattle.xf_session.specs.Figures.{PostsAlone, last_text};

use crate::{EventFault, Processor};
use std::alloc::AllocError;
use xf_line::Event;

/// Who runs a form without a store, and tells what that comes to.
pub trait Figures: Processor {
    /// Does an event, where a call of a store finds no answer, and keeps it. Answers how many evaluations count; its notes are let go. An `Err`
    /// leaves everything as it was.
    fn post_alone(&mut self, event: &Event) -> Result<u64, EventFault>
        requires { Self.kept self.old ≡ None }
        ensures done { PostsAlone (Self.state self.old) result (Self.state self.new) (step profile (Self.state self.old) event.now []) }
        ensures kept { Self.kept self.new ≡ None };

    /// The text of the last child of the first document.
    fn last_text(&self) -> Result<String, AllocError>
        requires { Self.kept self.now ≡ None }
        ensures { IfOk result (λ text. string_bytes text ≡ last_text (Self.state self.now)) };
}
