//! The rows of a form.

ghost use Rattle.std.specs.Prelude.{◌≡◌, ◌++◌, ◌<◌, ℕ, IfOk, OnOk, length, map, vec_len, slice_set};
ghost use Rattle.xf_form_refusals.specs.Rows.{shown};
ghost use Rattle.xf_form_refusals.specs.Walk as walk;

use crate::rows::Row;
use crate::space::space_below;
use crate::standing::{Standing, Zone, at_root, below, is_in_schema, is_outside};
use std::alloc::{AllocError, Global};
use xf_def_syntax::Part;
use xf_form_vocabulary::{Tag, keeps_text, schema_tag_of, tag_of};
use xf_name::{Lit, LitElement, Prefixes, Word};

/// A number that fits: a form that is read has fewer elements.
pub fn small(n: usize) -> Result<u32, AllocError>
    ensures { IfOk result (λ k. k ≡ n) }
{
    match u32::try_from(n) {
        Ok(k) => Ok(k),
        Err(_) => Err(AllocError),
    }
}

/// The elements of a form in document order.
pub fn rows_of<'a>(
    alloc: Global,
    prefixes: &Prefixes,
    lit: &'a Lit,
) -> Result<Vec<Row<'a>>, AllocError>
    ensures { IfOk result (λ rows. map shown rows.items ≡ walk.rows_of prefixes.now lit.now) }
{
    let mut rows = Vec::new(alloc);
    let mut parts = Vec::new(alloc);
    add_child(
        alloc,
        prefixes,
        lit,
        false,
        at_root(),
        0,
        &mut rows,
        &mut parts,
    )?;
    Ok(rows)
}

fn tag_in(prefixes: &Prefixes, zone: Zone, written: &str, space: u16) -> Result<Tag, AllocError>
    ensures { IfOk result (λ tag. tag ≡ walk.tag_in prefixes.now zone written.now space) }
{
    if is_outside(zone) {
        return tag_of(prefixes, written, space);
    }
    if is_in_schema(zone) {
        return schema_tag_of(prefixes, written, space);
    }
    Ok(Tag::Host)
}

// Whether texts count in these surroundings.
fn keeps(inside: Standing) -> bool
    ensures { result ≡ walk.keeps inside }
{
    is_outside(inside.zone) && keeps_text(inside.nearest)
}

// What stands in an element of a form goes behind the parts, and its elements behind the rows.
#[cycle(walk)]
fn add_child<'a>(
    alloc: Global,
    prefixes: &Prefixes,
    lit: &'a Lit,
    keeps: bool,
    inside: Standing,
    at: u32,
    rows: &mut Vec<Row<'a>>,
    parts: &mut Vec<Part>,
) -> Result<(), AllocError>
    ensures rows { OnOk result (map shown rows.new.items ≡ map shown rows.old.items ++ walk.rows_in (walk.piece_of prefixes.now lit.now) inside at (length rows.old.items)) }
    ensures parts { OnOk result (parts.new.items ≡ parts.old.items ++ walk.parts_in (walk.piece_of prefixes.now lit.now) keeps (length rows.old.items)) }
{
    match lit {
        Lit::Text(text) => {
            if keeps {
                parts.push(Part::Text(Word::from_str(alloc, text.as_str())?))?;
            }
            Ok(())
        }
        Lit::Element(element) => {
            parts.push(Part::Element(small(rows.len())?))?;
            add_element(alloc, prefixes, element, inside, at, rows)
        }
    }
}

#[cycle(walk)]
fn add_children<'a>(
    alloc: Global,
    prefixes: &Prefixes,
    children: &'a [Lit],
    inside: Standing,
    rows: &mut Vec<Row<'a>>,
) -> Result<Vec<Part>, AllocError>
    ensures { IfOk result (λ parts. walk.AddsAll (map (walk.piece_of prefixes.now) children.now) inside (map shown rows.old.items) (map shown rows.new.items) parts.items) }
{
    let keeps = keeps(inside);
    let mut parts = Vec::new(alloc);
    for (i, child) in children.iter().enumerate() {
        let at = small(i)?;
        add_child(alloc, prefixes, child, keeps, inside, at, rows, &mut parts)?;
    }
    Ok(parts)
}

#[cycle(walk)]
fn add_element<'a>(
    alloc: Global,
    prefixes: &Prefixes,
    element: &'a LitElement,
    standing: Standing,
    at: u32,
    rows: &mut Vec<Row<'a>>,
) -> Result<(), AllocError>
    ensures { OnOk result (map shown rows.new.items ≡ map shown rows.old.items ++ walk.walk_of prefixes.now element.now standing at (length rows.old.items)) }
{
    let place = rows.len();
    let space = space_below(prefixes, standing.space, element.attributes.as_slice());
    let tag = tag_in(prefixes, standing.zone, element.name.as_str(), space)?;
    let inside = below(standing, tag, space, small(place)?);
    rows.push(Row {
        element,
        tag,
        standing,
        at,
        parts: Vec::new(alloc),
    })?;
    let parts = add_children(alloc, prefixes, element.children.as_slice(), inside, rows)?;
    put(
        rows,
        place,
        Row {
            element,
            tag,
            standing,
            at,
            parts,
        },
    );
    Ok(())
}

// A row takes the place of another.
fn put<'a>(rows: &mut Vec<Row<'a>>, place: usize, row: Row<'a>)
    ensures { rows.new.items ≡ slice_set rows.old.items place row.entry }
{
    if place < rows.len() {
        rows[place] = row;
    }
}
