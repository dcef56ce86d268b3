//! What is written for an accepted event.
ghost use Rattle.std.specs.Prelude.{◌≡◌, ◌++◌, Bool, OnOk, string_bytes};
ghost use Rattle.xf_def_machine.specs.Replies.{ok_text};
ghost use Rattle.xf_def_machine.specs.State.{State};
ghost use Rattle.xf_def_machine.specs.Step.{Posted};
ghost use Rattle.xf_report.specs.Answers.{IsAnswer, answer_text, count_text};

use crate::note::push_notes;
use crate::text::push_number;
use std::alloc::{AllocError, Global};
use xf_def_machine::Note;

/// Appends the lines of an accepted event: its notes, how many events were accepted with it, and where they are counted how many
/// evaluations its recalculations made.
pub fn push_ok(
    alloc: Global,
    text: &mut String,
    notes: &[Note],
    accepted: u64,
    counted: Option<u64>,
) -> Result<(), AllocError>
    ensures { OnOk result ((counts : Bool) (s : State) (posted : Posted) → IsAnswer counts s posted notes.now accepted counted → string_bytes text.new ≡ string_bytes text.old ++ ok_text counts s posted) }
{
    push_answer(alloc, text, notes, accepted, counted)
}

fn push_answer(
    alloc: Global,
    text: &mut String,
    notes: &[Note],
    accepted: u64,
    counted: Option<u64>,
) -> Result<(), AllocError>
    ensures { OnOk result (string_bytes text.new ≡ string_bytes text.old ++ answer_text notes.now accepted counted) }
{
    push_notes(alloc, text, notes)?;
    text.push_str("ok ")?;
    push_number(text, accepted)?;
    push_count(text, counted)?;
    text.push_str("\n")
}

fn push_count(text: &mut String, counted: Option<u64>) -> Result<(), AllocError>
    ensures { OnOk result (string_bytes text.new ≡ string_bytes text.old ++ count_text counted) }
{
    let Some(count) = counted else {
        return Ok(());
    };
    text.push_str(" ")?;
    push_number(text, count)
}
