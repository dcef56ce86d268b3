//! The text of a state.

ghost use Rattle.std.specs.Prelude.{OnOk, string_bytes};
ghost use Rattle.xf_engine_state.specs.Calls.{Writes};
ghost use Rattle.xf_engine_state.specs.Parts.{IsLoaded, chosen_of};

use crate::marks::Marked;
use std::alloc::{AllocError, Global};
use xf_binds::Table;
use xf_controls::ControlList;
use xf_eval_context::{Index, Over};
use xf_form::Loaded;
use xf_report_state::push_state;
use xf_tree::Forest;

/// The parts of a state that are told.
#[derive(Clone, Copy)]
pub(crate) struct Telling<'a> {
    pub loaded: &'a Loaded,
    pub forest: &'a Forest,
    pub table: &'a Table,
    pub indexes: &'a [Index],
    pub cases: &'a [usize],
    pub controls: &'a ControlList,
}

/// Appends the text of the state that has these parts.
pub(crate) fn push_text(
    alloc: Global,
    telling: &Telling<'_>,
    text: &mut String,
) -> Result<(), AllocError>
    requires { IsLoaded telling.now.loaded.now }
    ensures { OnOk result (Writes (chosen_of telling.now.indexes.now telling.now.cases.now) telling.now.loaded.now telling.now.forest.now.forest telling.now.table.now telling.now.controls.now (string_bytes text.old) (string_bytes text.new)) }
{
    let form = &telling.loaded.form;
    if form.tables.instances.len() > u32::MAX as usize {
        // No memory holds so many.
        return Err(AllocError);
    }
    let over = Over {
        alloc,
        form,
        prefixes: &telling.loaded.prefixes,
        forest: telling.forest,
        indexes: Some(telling.indexes),
        told: None,
    };
    let marks = Marked {
        forest: telling.forest,
        table: telling.table,
    };
    push_state(
        &over,
        text,
        &marks,
        telling.controls,
        telling.indexes,
        telling.cases,
    )
}
