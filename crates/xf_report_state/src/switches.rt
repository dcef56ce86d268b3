//! The lines of repeats and switches.

ghost use Rattle.std.specs.Prelude.{◌≡◌, ◌++◌, OnOk, map, string_bytes, zip};
ghost use Rattle.std.specs.List.{flat_map};
ghost use Rattle.xf_def_ui.specs.Interface.{interface_of};
ghost use Rattle.xf_eval_context.specs.Indexes.{seen_index};
ghost use Rattle.xf_eval_context.specs.Over.{around_over};
ghost use Rattle.xf_report.specs.Named as named;
ghost use Rattle.xf_report_state.specs.Parts.{repeat_of, switch_of};

use crate::rows::count_now;
use std::alloc::AllocError;
use xf_eval_context::{Index, Over, index_of};
use xf_form_elements::switch::case_of;
use xf_report::{push_repeat, push_switch};

/// Appends the lines of these repeats, each with its index and how many rows it has.
pub(crate) fn push_repeats(
    over: &Over<'_>,
    text: &mut String,
    numbers: &[u64],
    indexes: &[Index],
    repeats: &[u32],
) -> Result<(), AllocError>
    requires { numbers.now ≡ named.numbers_of over.now.form.now.elements }
    ensures { OnOk result (string_bytes text.new ≡ string_bytes text.old ++ flat_map (repeat_of (interface_of over.now.form.now) (around_over over.now) (map seen_index indexes.now)) repeats.now) }
{
    for repeat in repeats {
        let index = index_of(over.form, indexes, *repeat).index;
        let rows = count_now(over, indexes, *repeat)?;
        push_repeat(over.alloc, text, over.form, numbers, *repeat, index, rows)?;
    }
    Ok(())
}

/// Appends the lines of these switches, each with its selected case.
pub(crate) fn push_switches(
    over: &Over<'_>,
    text: &mut String,
    numbers: &[u64],
    cases: &[usize],
    switches: &[u32],
) -> Result<(), AllocError>
    requires { numbers.now ≡ named.numbers_of over.now.form.now.elements }
    ensures { OnOk result (string_bytes text.new ≡ string_bytes text.old ++ flat_map (switch_of (interface_of over.now.form.now)) (zip switches.now cases.now)) }
{
    for at in 0..switches.len().min(cases.len()) {
        let case = case_of(over.form, switches[at], cases[at]);
        push_switch(over.alloc, text, over.form, numbers, switches[at], case)?;
    }
    Ok(())
}
