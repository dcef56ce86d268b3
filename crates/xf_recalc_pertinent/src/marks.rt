//! Marks of entries, by their places.

ghost use Rattle.std.specs.Prelude.{◌≡◌, false, filter, length, replicate, IfOk};
ghost use Rattle.xf_recalc_pertinent.specs.Places.{is_marked};

use std::alloc::{AllocError, Global};
use xf_base::Items;

/// Which entries are marked, by their places.
pub type MarkList = Items<bool>;

/// So many, none of which is marked.
pub(crate) fn none_marked(alloc: Global, count: usize) -> Result<MarkList, AllocError>
    ensures { IfOk result (λ marks. marks ≡ replicate count false) }
{
    let marks = vec![in alloc; false; count]?;
    Ok(Items::from_vec(marks))
}

/// Whether the entry at a place is marked: past them none is.
pub(crate) fn is_marked(marks: &MarkList, place: usize) -> bool
    ensures { result ≡ is_marked marks.now place }
{
    match marks.get(place) {
        Some(mark) => *mark,
        None => false,
    }
}

/// How many are marked.
pub(crate) fn count(marks: &MarkList) -> u64
    ensures { result ≡ length (filter (λ mark. mark) marks.now) }
{
    let mut count: u64 = 0;
    for place in 0..marks.len() {
        if is_marked(marks, place) {
            count += 1;
        }
    }
    count
}
