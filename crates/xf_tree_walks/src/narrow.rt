//! The part of a long range of rows that has all that is sought in it.
ghost use Rattle.std.specs.Prelude.{◌≡◌, ◌<◌, ◌≤◌, false, length, slice_index_or, IfSome};
ghost use Rattle.xf_tree_rows.specs.Rows.{AllDeep, no_row};
ghost use Rattle.xf_tree_walks.specs.Found.{sought_within};
ghost use Rattle.xf_tree_walks.specs.Nodes.{is_kin};
ghost use Rattle.xf_tree_walks.specs.Walks.{AreNodes, between};

use xf_name::QName;
use xf_tree_contents::{Bearer, Principal, Slots, Sought};
use xf_tree_rows::{Hints, Rows};

// So many rows are walked sooner than a name is looked up.
const SHORT: usize = 32;

/// Of the rows from one place to before another, in which the tops of trees have this depth, a part that has all tops that are sought. Where an
/// element is sought whose name stands once, it is that row alone.
pub fn narrowed(
    rows: &Rows,
    slots: &Slots,
    hints: &Hints,
    at: usize,
    end: usize,
    depth: u32,
    sought: Sought<'_>,
) -> (usize, usize)
    requires nodes { AreNodes slots.now rows.now.items }
    requires within { end ≤ length rows.now.items }
    requires deep { AllDeep depth (between at end rows.now.items) }
    ensures within { result.1 ≤ length rows.now.items }
    ensures deep { AllDeep depth (between result.0 result.1 rows.now.items) }
    ensures same { sought_within slots.now rows.now.items sought.entry (is_kin depth false) result.0 result.1 ≡ sought_within slots.now rows.now.items sought.entry (is_kin depth false) at end }
{
    if end.saturating_sub(at) <= SHORT {
        return (at, end);
    }
    match sought {
        Sought::Named(Principal::Element, asked) => {
            narrowed_to(rows, slots, hints, at, end, depth, asked)
        }
        _ => (at, end),
    }
}

/// The same of elements of a name.
fn narrowed_to(
    rows: &Rows,
    slots: &Slots,
    hints: &Hints,
    at: usize,
    end: usize,
    depth: u32,
    asked: &QName,
) -> (usize, usize)
    requires nodes { AreNodes slots.now rows.now.items }
    requires order { at ≤ end }
    requires within { end ≤ length rows.now.items }
    requires deep { AllDeep depth (between at end rows.now.items) }
    ensures within { result.1 ≤ length rows.now.items }
    ensures deep { AllDeep depth (between result.0 result.1 rows.now.items) }
    ensures same { sought_within slots.now rows.now.items (Sought.Named Principal.Element asked.entry) (is_kin depth false) result.0 result.1 ≡ sought_within slots.now rows.now.items (Sought.Named Principal.Element asked.entry) (is_kin depth false) at end }
{
    let key = match slots.bearer_of(asked) {
        Bearer::Nobody => return (end, end),
        Bearer::One(key) => key,
        Bearer::Anybody => return (at, end),
    };
    let Some(place) = row_under(rows, hints, key) else {
        return (at, end);
    };
    if at <= place && place < end {
        return (place, place + 1);
    }
    (end, end)
}

/// The row of a key, where the hints say so.
fn row_under(rows: &Rows, hints: &Hints, key: usize) -> Option<usize>
    ensures { IfSome result (λ at. (at < length rows.now.items) × ((slice_index_or rows.now.items at no_row).key ≡ key)) }
{
    let noted = hints.noted(key)?;
    if noted < rows.len() && rows.at(noted).key == key {
        return Some(noted);
    }
    let moved = hints.moved(noted);
    if moved < rows.len() && rows.at(moved).key == key {
        return Some(moved);
    }
    None
}
