//! The properties of nodes and controls, as they are printed.
ghost use Rattle.std.specs.Prelude.{◌≡◌, ◌++◌, OnOk, string_bytes};
ghost use Rattle.xf_def_machine.specs.StateText.{mark_if, marks_text};

use std::alloc::AllocError;
use xf_def_ui::Marks;

/// Appends a letter or a dash for each property.
pub fn push_marks(text: &mut String, marks: Marks) -> Result<(), AllocError>
    ensures { OnOk result (string_bytes text.new ≡ string_bytes text.old ++ marks_text marks) }
{
    text.push_str(mark_if(marks.relevant, "e"))?;
    text.push_str(mark_if(!marks.readonly, "w"))?;
    text.push_str(mark_if(marks.required, "r"))?;
    text.push_str(mark_if(marks.valid, "v"))
}

fn mark_if(holds: bool, mark: &'static str) -> &'static str
    ensures { result.now ≡ mark_if holds mark.now }
{
    if holds { mark } else { "-" }
}
