//! The literal tree of a node with resolved names.
ghost use Rattle.std.specs.Prelude.{◌≡◌, Some, IfOk, map};
ghost use Rattle.slab.specs.Slab.{get};
ghost use Rattle.xf_def_forest.specs.Literal.{bare_part, gathered, first_tree_in, inner, outer};
ghost use Rattle.xf_tree_contents.specs.Seen.{seen_content};
ghost use Rattle.xf_tree_contents.specs.Keys.{content_in};
ghost use Rattle.xf_tree_walks.specs.Nodes.{node_of};
ghost use Rattle.xf_tree_literals.specs.Print.{IsPrintable, shown, stacked, bare_with};

use crate::gather::{Below, take_inner};
use std::alloc::{AllocError, Global};
use xf_base::Items;
use xf_def_forest::{Bare, BareAttribute, BareElement};
use xf_name::Word;
use xf_tree_contents::{Seen, Slots, duplicate_meaning, shown_at};
use xf_tree_rows::{Row, RowSlice};

type Parts = Vec<(u32, Below<BareAttribute, Bare>)>;

/// The tree that these rows are.
pub fn bare_of_rows(alloc: Global, slots: &Slots, rows: &RowSlice<'_>) -> Result<Bare, AllocError>
    requires { IsPrintable (map (node_of slots.now) rows.now) }
    ensures { IfOk result (λ tree. Some tree ≡ first_tree_in (gathered bare_part (map (node_of slots.now) rows.now))) }
{
    let mut parts = bare_parts(alloc, slots, rows)?;
    match parts.pop() {
        Some((_, Below::Tree(tree))) => Ok(tree),
        _ => Ok(Bare::Text(Word::new(alloc))),
    }
}

fn bare_parts(alloc: Global, slots: &Slots, rows: &RowSlice<'_>) -> Result<Parts, AllocError>
    ensures { IfOk result (λ parts. stacked parts.items ≡ gathered bare_part (map (node_of slots.now) rows.now)) }
{
    let mut parts = Vec::new(alloc);
    let mut at = rows.len();
    while at > 0 {
        at -= 1;
        let row = rows.at(at);
        let part = bare_at(alloc, slots, row, &mut parts)?;
        parts.push((row.depth, part))?;
    }
    Ok(parts)
}

/// The part of a node, with what is below it taken off the stack.
fn bare_at(
    alloc: Global,
    slots: &Slots,
    row: Row,
    parts: &mut Parts,
) -> Result<Below<BareAttribute, Bare>, AllocError>
    ensures part { IfOk result (λ part. shown part ≡ bare_part (content_in (get slots.now row.key)) (inner row.depth (stacked parts.old.items))) }
    ensures left { IfOk result (λ part. stacked parts.new.items ≡ outer row.depth (stacked parts.old.items)) }
{
    let mut attributes = Vec::new(alloc);
    let mut children = Vec::new(alloc);
    take_inner(parts, row.depth, &mut attributes, &mut children)?;
    bare_part(alloc, shown_at(slots, row.key), attributes, children)
}

fn bare_part(
    alloc: Global,
    content: Seen<'_>,
    attributes: Vec<BareAttribute>,
    children: Vec<Bare>,
) -> Result<Below<BareAttribute, Bare>, AllocError>
    ensures { IfOk result (λ part. shown part ≡ bare_with (seen_content content.entry) attributes.items children.items) }
{
    match content {
        Seen::Root => Ok(Below::Tree(Bare::Text(Word::new(alloc)))),
        Seen::Text(text) => {
            let text = Word::from_str(alloc, text)?;
            Ok(Below::Tree(Bare::Text(text)))
        }
        Seen::Attribute(name, text) => {
            let name = duplicate_meaning(alloc, &name.meaning)?;
            let text = Word::from_str(alloc, text)?;
            Ok(Below::Attribute(BareAttribute { name, text }))
        }
        Seen::Element(name) => {
            let name = duplicate_meaning(alloc, &name.meaning)?;
            Ok(Below::Tree(Bare::Element(BareElement {
                name,
                attributes: Items::from_vec(attributes),
                children: Items::from_vec(children),
            })))
        }
    }
}
