//! The elements of a form in document order, as rows.

ghost use Rattle.std.specs.Prelude.{◌≡◌, map, option_map, slice_get};
ghost use Rattle.xf_form_refusals.specs.Rows as seen;

use crate::standing::{Standing, is_outside};
use xf_def_syntax::Part;
use xf_form_vocabulary::{Tag, is_action, is_counted, is_passed_over, tells_text};
use xf_name::{LitElement, Pair};

/// An element of a form.
#[derive(Drop)]
pub struct Row<'a> {
    pub element: &'a LitElement,
    /// What it is: a host element inside an instance and in what is passed over.
    pub tag: Tag,
    pub standing: Standing,
    /// Its place among what stands in its parent.
    pub at: u32,
    /// What stands in it: elements by their places, and texts where they count.
    pub parts: Vec<Part>,
}

/// Whether it is an action outside all others.
pub fn is_handler(row: &Row<'_>) -> bool
    ensures { result ≡ seen.is_handler (seen.shown row.now) }
{
    is_action(row.tag) && !row.standing.in_action
}

/// Whether it has a number: it is outside instances, and not passed over.
pub fn is_numbered(row: &Row<'_>) -> bool
    ensures { result ≡ seen.is_numbered (seen.shown row.now) }
{
    is_outside(row.standing.zone) && !is_passed_over(row.tag)
}

/// Whether it is an output that is part of a text.
pub fn is_inline(row: &Row<'_>) -> bool
    ensures { result ≡ seen.is_inline (seen.shown row.now) }
{
    is_output(row.tag) && tells_text(row.standing.nearest)
}

fn is_output(tag: Tag) -> bool
    ensures { result ≡ seen.is_output tag }
{
    match tag {
        Tag::Output => true,
        _ => false,
    }
}

/// Whether it is a control or container.
pub fn is_control_row(row: &Row<'_>) -> bool
    ensures { result ≡ seen.is_control_row (seen.shown row.now) }
{
    is_counted(row.tag) && !is_inline(row)
}

/// The id of an element.
pub fn id_in<'a>(attributes: &'a [Pair]) -> Option<&'a str>
    ensures { option_map (λ id. id.now) result ≡ seen.id_in attributes.now }
{
    for attribute in attributes {
        if attribute.name.is("id") {
            return Some(attribute.text.as_str());
        }
    }
    None
}

/// The element at a place.
pub(crate) fn row_at<'s, 'a>(rows: &'s [Row<'a>], place: usize) -> Option<&'s Row<'a>>
    ensures { option_map (λ row. seen.shown row.now) result ≡ slice_get (map seen.shown rows.now) place }
{
    rows.get(place)
}

/// What the element at a place is: a host element where there is none.
pub(crate) fn tag_at(rows: &[Row<'_>], place: u32) -> Tag
    ensures { result ≡ seen.tag_of (slice_get (map seen.shown rows.now) place) }
{
    match row_at(rows, place as usize) {
        Some(row) => row.tag,
        None => Tag::Host,
    }
}

/// What one that stands in an element is.
pub(crate) fn tag_in(rows: &[Row<'_>], part: &Part) -> Tag
    ensures { result ≡ seen.tag_in (map seen.shown rows.now) part.now }
{
    match part {
        Part::Text(_) => Tag::Host,
        Part::Element(place) => tag_at(rows, *place),
    }
}
