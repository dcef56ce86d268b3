//! The turns of the calculates of a model, by what is kept of its entries (XForms 1.1, section 4.3.2 and appendix C).

ghost use Rattle.std.specs.Prelude.{◌≡◌};
ghost use Rattle.xf_binds.specs.Placed.{AreInOrder};
ghost use Rattle.xf_binds.specs.Table.{kept_at};
ghost use Rattle.xf_recalc.specs.Passes.{is_passed};

use xf_binds::{Table, Turn};

/// The turns of the calculates of a model, in the order that its rebuild found.
pub(crate) fn turns_of<'a>(model: u32, table: &'a Table) -> &'a [Turn]
    ensures { AreInOrder (kept_at table.now model).entries (kept_at table.now model).asks result.now }
{
    match table.turns(model) {
        Some(turns) => turns,
        None => &[],
    }
}

/// Whether the entry at a place is passed over: past the marks none is.
pub(crate) fn is_passed(marks: &[bool], place: usize) -> bool
    ensures { result ≡ is_passed marks.now place }
{
    match marks.get(place) {
        Some(mark) => !*mark,
        None => false,
    }
}
