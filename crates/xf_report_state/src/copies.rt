//! The copies of controls, with the numbers of their rows.

ghost use Rattle.std.specs.Prelude.{◌≡◌, ◌++◌, [], OnOk, map, option_map, string_bytes};
ghost use Rattle.xf_def_machine.specs.ControlText.{has_line};
ghost use Rattle.xf_def_ui.specs.Elements.{element_at};
ghost use Rattle.xf_def_ui.specs.Interface.{interface_of, sort_of};
ghost use Rattle.xf_eval_context.specs.Over.{around_over};
ghost use Rattle.xf_controls.specs.Seen as controls;
ghost use Rattle.xf_report.specs.Controls.{seen_copy};
ghost use Rattle.xf_report.specs.Named as named;
ghost use Rattle.xf_report_state.specs.Levels.{AreLevels};
ghost use Rattle.xf_report_state.specs.Parts.{copies_text, lines_of, lines_with, shown_of};

use crate::levels::{Level, go_to, numbers_of};
use std::alloc::AllocError;
use xf_controls::ControlCopy;
use xf_def_syntax::{Control, Form, Kind};
use xf_def_ui::Marks;
use xf_eval_context::Over;
use xf_form_elements::{element_in, repeats_around};
use xf_name::Word;
use xf_report::{ShownCopy, push_copy};

/// Appends the lines of these copies.
pub(crate) fn push_copies(
    over: &Over<'_>,
    text: &mut String,
    numbers: &[u64],
    copies: &[ControlCopy],
) -> Result<(), AllocError>
    requires { numbers.now ≡ named.numbers_of over.now.form.now.elements }
    ensures { OnOk result (string_bytes text.new ≡ string_bytes text.old ++ copies_text (interface_of over.now.form.now) (around_over over.now) (map controls.seen_copy copies.now)) }
{
    let mut levels = Vec::new(over.alloc);
    for copy in copies {
        push_where(over, text, numbers, &mut levels, copy)?;
    }
    Ok(())
}

/// Appends the lines of a copy, where it has one.
fn push_where(
    over: &Over<'_>,
    text: &mut String,
    numbers: &[u64],
    levels: &mut Vec<Level>,
    copy: &ControlCopy,
) -> Result<(), AllocError>
    requires numbers { numbers.now ≡ named.numbers_of over.now.form.now.elements }
    requires levels { AreLevels (interface_of over.now.form.now) (around_over over.now) [] levels.old.items }
    ensures text { OnOk result (string_bytes text.new ≡ string_bytes text.old ++ lines_of (interface_of over.now.form.now) (around_over over.now) (controls.seen_copy copy.now)) }
    ensures levels { OnOk result (AreLevels (interface_of over.now.form.now) (around_over over.now) [] levels.new.items) }
{
    if !has_line(over.form, copy.element) {
        return Ok(());
    }
    push_in_rows(over, text, numbers, levels, copy)
}

/// Appends the lines of a copy: one in no row leaves the levels as they are.
fn push_in_rows(
    over: &Over<'_>,
    text: &mut String,
    numbers: &[u64],
    levels: &mut Vec<Level>,
    copy: &ControlCopy,
) -> Result<(), AllocError>
    requires numbers { numbers.now ≡ named.numbers_of over.now.form.now.elements }
    requires levels { AreLevels (interface_of over.now.form.now) (around_over over.now) [] levels.old.items }
    ensures text { OnOk result (string_bytes text.new ≡ string_bytes text.old ++ lines_with (interface_of over.now.form.now) (around_over over.now) (controls.seen_copy copy.now)) }
    ensures levels { OnOk result (AreLevels (interface_of over.now.form.now) (around_over over.now) [] levels.new.items) }
{
    if copy.rows.is_empty() {
        return push_copy(over.alloc, text, over.form, numbers, &shown_of(copy, &[]));
    }
    let repeats = repeats_around(over.alloc, over.form, copy.element)?;
    go_to(over, levels, repeats.as_slice(), copy.rows.as_slice())?;
    let rows = numbers_of(over.alloc, levels)?;
    let shown = shown_of(copy, rows.as_slice());
    push_copy(over.alloc, text, over.form, numbers, &shown)
}

/// A copy as it is printed, with these numbers of its rows.
fn shown_of<'a>(copy: &'a ControlCopy, rows: &'a [u32]) -> ShownCopy<'a>
    ensures { seen_copy result ≡ shown_of rows.now (controls.seen_copy copy.now) }
{
    ShownCopy {
        element: copy.element,
        rows,
        marks: Marks {
            relevant: copy.enabled,
            readonly: !copy.readwrite,
            required: copy.required,
            valid: copy.valid,
        },
        value: text_of(&copy.value),
        items: copy.items.as_slice(),
    }
}

fn text_of(value: &Option<Word>) -> Option<&str>
    ensures { option_map (λ v. v.now) result ≡ value.now }
{
    match value {
        Some(text) => Some(text.as_str()),
        None => None,
    }
}

/// Whether copies of an element have a line: those of repeats and cases have none.
fn has_line(form: &Form, element: u32) -> bool
    ensures { result ≡ has_line (element_at (interface_of form.now) element).sort }
{
    match element_in(form, element) {
        Some(here) => has_line_by(&here.kind),
        None => true,
    }
}

fn has_line_by(kind: &Kind) -> bool
    ensures { result ≡ has_line (sort_of kind.now) }
{
    match kind {
        Kind::Control(_, control) => match control {
            Control::Repeat(_, _) => false,
            Control::Case(_) => false,
            _ => true,
        },
        _ => true,
    }
}
