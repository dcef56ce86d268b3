//! The limits of a form.

ghost use Rattle.std.specs.Prelude.{◌≡◌, option_map, count_by, map};
ghost use Rattle.std.specs.List.{list_any};
ghost use Rattle.xf_form_refusals.specs.Classes.{is_of};
ghost use Rattle.xf_form_refusals.specs.Limits as limits;
ghost use Rattle.xf_form_refusals.specs.Rows.{shown};

use crate::classes::{Class, is_of};
use crate::rows::Row;
use xf_base::limits::{BIND_LIMIT, CONTROL_LIMIT, DEPTH_LIMIT, INSTANCE_LIMIT, MODEL_LIMIT};

/// How many elements of a kind there are.
fn count_of(rows: &[Row<'_>], class: Class) -> usize
    ensures { result ≡ count_by (λ row. is_of class (shown row)) rows.now }
{
    rows.iter().filter(|row| is_of(class, row)).count()
}

/// Whether there are too many elements of a kind.
fn has_too_many(rows: &[Row<'_>]) -> bool
    ensures { result ≡ limits.has_too_many (map shown rows.now) }
{
    count_of(rows, Class::Model) > MODEL_LIMIT
        || count_of(rows, Class::Instance) > INSTANCE_LIMIT
        || count_of(rows, Class::Bind) > BIND_LIMIT
        || count_of(rows, Class::Control) > CONTROL_LIMIT
}

/// Whether an instance has too many elements one in another.
fn is_too_deep(rows: &[Row<'_>]) -> bool
    ensures { result ≡ list_any limits.is_too_deep (map shown rows.now) }
{
    for row in rows {
        if row.standing.depth > DEPTH_LIMIT as u8 {
            return true;
        }
    }
    false
}

/// The word of the first limit that is passed.
pub fn limit_of(rows: &[Row<'_>]) -> Option<&'static str>
    ensures { option_map (λ word. word.now) result ≡ limits.limit_of (map shown rows.now) }
{
    if has_too_many(rows) {
        return Some("counts");
    }
    if is_too_deep(rows) {
        return Some("depth");
    }
    None
}
