//! The literal tree of a node as it is printed.
ghost use Rattle.std.specs.Prelude.{◌≡◌, Some, IfOk, map, reverse};
ghost use Rattle.slab.specs.Slab.{get};
ghost use Rattle.xf_def_forest.specs.Forest.{written};
ghost use Rattle.xf_def_forest.specs.Literal.{gathered, first_tree_in, inner, outer};
ghost use Rattle.xf_def_forest.specs.Printed.{printing, printed_as};
ghost use Rattle.xf_tree_contents.specs.Seen.{seen_content};
ghost use Rattle.xf_tree_contents.specs.Keys.{content_in};
ghost use Rattle.xf_tree_walks.specs.Nodes.{node_of};
ghost use Rattle.xf_tree_literals.specs.Print.{IsPrintable, shown, stacked, placed, lit_part, lit_with, lits_in};

use crate::declare::{declarations, element_pairs};
use crate::gather::{Below, take_inner};
use crate::spaces::{Line, with_spaces};
use std::alloc::{AllocError, Global};
use xf_base::Items;
use xf_def_forest::Name;
use xf_name::{Lit, LitElement, Pair, Prefixes, Word};
use xf_tree_contents::{Seen, Slots, shown_at};
use xf_tree_rows::Row;

type Parts = Vec<(u32, Below<Pair, Lit>)>;

/// The tree that these rows are printed as.
pub fn lit_of_rows(
    alloc: Global,
    slots: &Slots,
    prefixes: &Prefixes,
    rows: &[Row],
) -> Result<Lit, AllocError>
    requires { IsPrintable (map (node_of slots.now) rows.now) }
    ensures { IfOk result (λ lit. Some lit ≡ printed_as prefixes.now (map (node_of slots.now) rows.now) (first_tree_in (gathered (printing prefixes.now) (map (node_of slots.now) rows.now)))) }
{
    let declared = declarations(alloc, slots, prefixes, rows)?;
    let lines = with_spaces(alloc, slots, rows)?;
    let mut parts = lits_in(alloc, slots, prefixes, &lines[1..])?;
    match lit_at(alloc, slots, prefixes, lines[0], declared, &mut parts)? {
        Below::Tree(lit) => Ok(lit),
        Below::Attribute(_) => Ok(Lit::Text(Word::new(alloc))),
    }
}

/// The parts that these lines come to, from the last one back.
fn lits_in(
    alloc: Global,
    slots: &Slots,
    prefixes: &Prefixes,
    lines: &[Line],
) -> Result<Parts, AllocError>
    ensures { IfOk result (λ parts. stacked parts.items ≡ lits_in prefixes.now (map (placed slots.now) lines.now)) }
{
    let mut parts = Vec::new(alloc);
    let mut at = lines.len();
    while at > 0 {
        at -= 1;
        let line = lines[at];
        let part = lit_at(alloc, slots, prefixes, line, Vec::new(alloc), &mut parts)?;
        parts.push((line.row.depth, part))?;
    }
    Ok(parts)
}

/// The part of a node, with what is below it taken off the stack. Of the declarations the greatest is first.
fn lit_at(
    alloc: Global,
    slots: &Slots,
    prefixes: &Prefixes,
    line: Line,
    declared: Vec<Pair>,
    parts: &mut Parts,
) -> Result<Below<Pair, Lit>, AllocError>
    ensures part { IfOk result (λ part. shown part ≡ lit_part prefixes.now line.above (reverse declared.items) (content_in (get slots.now line.row.key)) (inner line.row.depth (stacked parts.old.items))) }
    ensures left { IfOk result (λ part. stacked parts.new.items ≡ outer line.row.depth (stacked parts.old.items)) }
{
    let mut attributes = Vec::new(alloc);
    let mut children = Vec::new(alloc);
    take_inner(parts, line.row.depth, &mut attributes, &mut children)?;
    lit_part(
        alloc,
        prefixes,
        line.above,
        declared,
        shown_at(slots, line.row.key),
        attributes,
        children,
    )
}

fn lit_part(
    alloc: Global,
    prefixes: &Prefixes,
    above: u16,
    declared: Vec<Pair>,
    content: Seen<'_>,
    attributes: Vec<Pair>,
    children: Vec<Lit>,
) -> Result<Below<Pair, Lit>, AllocError>
    ensures { IfOk result (λ part. shown part ≡ lit_with prefixes.now above (reverse declared.items) (seen_content content.entry) attributes.items children.items) }
{
    match content {
        Seen::Root => Ok(Below::Tree(Lit::Text(Word::new(alloc)))),
        Seen::Text(text) => {
            let text = Word::from_str(alloc, text)?;
            Ok(Below::Tree(Lit::Text(text)))
        }
        Seen::Attribute(name, text) => {
            let name = written_word(alloc, name)?;
            let text = Word::from_str(alloc, text)?;
            Ok(Below::Attribute(Pair { name, text }))
        }
        Seen::Element(name) => {
            let pairs = element_pairs(alloc, prefixes, above, name, attributes, declared)?;
            let name = written_word(alloc, name)?;
            Ok(Below::Tree(Lit::Element(LitElement {
                name,
                attributes: Items::from_vec(pairs),
                children: Items::from_vec(children),
            })))
        }
    }
}

/// A name as it is written.
fn written_word(alloc: Global, name: &Name) -> Result<Word, AllocError>
    ensures { IfOk result (λ word. word ≡ written name.now) }
{
    if name.prefix.is_empty() {
        return Word::from_str(alloc, name.meaning.local.as_str());
    }
    let mut word = Word::from_str(alloc, name.prefix.as_str())?;
    word.push_str(":")?;
    word.push_str(name.meaning.local.as_str())?;
    Ok(word)
}
