//! The look-up of a name.

ghost use Rattle.std.specs.Prelude.{◌≡◌, ◌<◌, length, true, IfSome};
ghost use Rattle.std.specs.Ordering.{nat_cmp};
ghost use Rattle.std.specs.Cmp.Lexicographic.{slice_cmp};
ghost use Rattle.xf_table.specs.Rows.{entry_of, entries_of, is_below_first, rises, code_of, counts_from};
ghost use Rattle.xf_table.specs.Places.{name_at, code_at};

use crate::row::Row;
use std::cmp::Ordering;

/// Whether the names rise strictly, by their bytes.
pub fn is_ordered(rows: &[Row]) -> bool
    ensures { result ≡ rises (entries_of rows.now) }
{
    let mut rest = rows;
    while let [row, after @ ..] = rest {
        if !is_below_first(row, after) {
            return false;
        }
        rest = after;
    }
    true
}

/// Whether the row's name is below that of the first of the rows.
fn is_below_first(row: &Row, rows: &[Row]) -> bool
    ensures { result ≡ is_below_first (entry_of row.now) (entries_of rows.now) }
{
    match rows {
        [] => true,
        [next, ..] => row.name < next.name,
    }
}

/// The code of the row with the name, by halving.
pub fn find(rows: &[Row], name: &str) -> Option<u16>
    requires { rises (entries_of rows.now) ≡ true }
    ensures answer { result ≡ code_of name.now (entries_of rows.now) }
    ensures within { counts_from 0 (entries_of rows.now) ≡ true → IfSome result (λ code. code < length rows.now) }
{
    let mut low = 0;
    let mut high = rows.len();
    while low < high {
        let middle = low + (high - low) / 2;
        match order_at(rows, middle, name) {
            Ordering::Less => low = middle + 1,
            Ordering::Greater => high = middle,
            Ordering::Equal => return Some(code_at(rows, middle)),
        }
    }
    None
}

/// How the name at a place stands to another.
fn order_at(rows: &[Row], place: usize, name: &str) -> Ordering
    requires { place < length rows.now }
    ensures { result ≡ slice_cmp nat_cmp (name_at (entries_of rows.now) place) name.now }
{
    rows[place].name.cmp(name)
}

/// The code at a place.
fn code_at(rows: &[Row], place: usize) -> u16
    requires { place < length rows.now }
    ensures { result ≡ code_at (entries_of rows.now) place }
{
    rows[place].code
}
