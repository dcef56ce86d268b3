//! The text of a whole state.

ghost use Rattle.std.specs.Prelude.{◌≡◌, ◌++◌, ◌<◌, ◌^◌, OnOk, length, map, string_bytes};
ghost use Rattle.xf_def_machine.specs.ControlText.{state_text};
ghost use Rattle.xf_def_machine.specs.Profile.{Profile};
ghost use Rattle.xf_def_machine.specs.State.{State};
ghost use Rattle.xf_eval_context.specs.Indexes.{seen_index};
ghost use Rattle.xf_controls.specs.Seen.{seen_copy};
ghost use Rattle.xf_report_state.specs.Parts.{IsState, text_of};

use crate::copies::push_copies;
use crate::switches::{push_repeats, push_switches};
use std::alloc::AllocError;
use xf_controls::ControlList;
use xf_def_ui::NodeMarks;
use xf_eval_context::{Index, Over};
use xf_report::{numbers_of, push_instances};

/// Appends the text of a state: of instances, repeats, switches and controls. What it is evaluated over sees the indexes of the state, and no
/// event; nothing is evaluated for a form without repeats.
pub fn push_state<M: NodeMarks>(
    over: &Over<'_>,
    text: &mut String,
    marks: &M,
    controls: &ControlList,
    indexes: &[Index],
    cases: &[usize],
) -> Result<(), AllocError>
    requires few { length over.now.form.now.tables.instances < 2 ^ 32 }
    ensures { OnOk result ((p : Profile) (s : State) → IsState p s over.now (M.marks_of marks.now) (map seen_copy controls.now) (map seen_index indexes.now) cases.now → string_bytes text.new ≡ string_bytes text.old ++ state_text p s) }
{
    over.forest.are_trees();
    push_parts(over, text, marks, controls, indexes, cases)
}

fn push_parts<M: NodeMarks>(
    over: &Over<'_>,
    text: &mut String,
    marks: &M,
    controls: &ControlList,
    indexes: &[Index],
    cases: &[usize],
) -> Result<(), AllocError>
    requires few { length over.now.form.now.tables.instances < 2 ^ 32 }
    ensures { OnOk result (string_bytes text.new ≡ string_bytes text.old ++ text_of over.now (M.marks_of marks.now) (map seen_copy controls.now) (map seen_index indexes.now) cases.now) }
{
    let form = over.form;
    let numbers = numbers_of(over.alloc, form)?;
    let instances = form.tables.instances.as_slice();
    push_instances(over.alloc, text, over.forest, instances, marks)?;
    push_repeats(over, text, &numbers, indexes, form.repeats.as_slice())?;
    push_switches(over, text, &numbers, cases, form.switches.as_slice())?;
    push_copies(over, text, &numbers, controls.as_slice())?;
    text.push_str("end\n")
}
