//! Which entries of a model a recalculation evaluates, and how many.

ghost use Rattle.std.specs.Prelude.{◌≡◌, List, IfOk};
ghost use Rattle.xf_def_forest.specs.Shape.{shape_of};
ghost use Rattle.xf_def_forest.specs.Visit.{Visit};
ghost use Rattle.xf_def_model.specs.Applied as applied;
ghost use Rattle.xf_def_model.specs.Pertinent.{Changes, pertinent_count};
ghost use Rattle.xf_def_model.specs.Rules.{Scope};
ghost use Rattle.xf_binds.specs.Table.{kept_at};
ghost use Rattle.xf_recalc_pertinent.specs.Marked.{pertinent_marks};
ghost use Rattle.xf_recalc_pertinent.specs.OfTable.{IsOfTable, changes_in};

use crate::begun::begun;
use crate::marks::{MarkList, count};
use crate::spreading::spread;
use crate::touched::touched;
use std::alloc::{AllocError, Global};
use xf_binds::Table;
use xf_def_syntax::Tables;
use xf_tree::Forest;

/// Which entries of a model the changes since its last recalculation concern, by their places: those that its next one evaluates.
pub fn pertinent_marks(
    alloc: Global,
    tables: &Tables,
    forest: &Forest,
    table: &Table,
    model: u32,
) -> Result<MarkList, AllocError>
    ensures { IfOk result (λ marks. (scope : Scope) → IsOfTable scope tables.now forest.now.forest.nodes (kept_at table.now model)
        → marks ≡ pertinent_marks scope (shape_of forest.now.forest.nodes) (kept_at table.now model).entries (changes_in (kept_at table.now model))) }
{
    let begun = begun(alloc, tables, table, model)?;
    let touched = touched(alloc, forest, table, model)?;
    spread(table, model, begun, touched)
}

/// How many these are.
pub fn pertinent_count(marks: &MarkList) -> u64
    ensures { (scope : Scope) (all : List Visit) (entries : List applied.Entry) (changes : Changes)
        → marks.now ≡ pertinent_marks scope all entries changes → result ≡ pertinent_count scope all entries changes }
{
    count(marks)
}
