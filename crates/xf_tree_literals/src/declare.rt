//! Declarations of namespaces, and pairs in the order of the bytes of their names.
ghost use Rattle.std.specs.Prelude.{◌≡◌, ◌++◌, [], map, reverse, codes, IfOk, OnOk};
ghost use Rattle.xf_def_forest.specs.Printed.{pair, space_text, with_pair, with_pairs, with_prefix, with_default, prefixes_in};
ghost use Rattle.xf_tree_walks.specs.Nodes.{node_of};
ghost use Rattle.xf_tree_literals.specs.Print.{IsPlace, AreDeclared};

use indexmap::IndexSet;
use std::alloc::{AllocError, Global};
use xf_def_forest::Name;
use xf_name::{Pair, Prefixes, Word};
use xf_tree_contents::{Slots, full_name};
use xf_tree_rows::Row;

/// The declarations of all prefixes that these rows use, the greatest first.
pub fn declarations(
    alloc: Global,
    slots: &Slots,
    prefixes: &Prefixes,
    rows: &[Row],
) -> Result<Vec<Pair>, AllocError>
    ensures { IfOk result (λ pairs. reverse pairs.items ≡ prefixes_in prefixes.now (map (node_of slots.now) rows.now)) }
{
    let mut pairs = Vec::new(alloc);
    let mut seen = IndexSet::new(alloc);
    declare_all(alloc, slots, prefixes, rows, &mut seen, &mut pairs)?;
    Ok(pairs)
}

fn declare_all<'a>(
    alloc: Global,
    slots: &'a Slots,
    prefixes: &Prefixes,
    rows: &[Row],
    seen: &mut IndexSet<&'a str>,
    pairs: &mut Vec<Pair>,
) -> Result<(), AllocError>
    requires seen { seen.old.keys ≡ [] }
    requires pairs { pairs.old.items ≡ [] }
    ensures { OnOk result (reverse pairs.new.items ≡ prefixes_in prefixes.now (map (node_of slots.now) rows.now)) }
{
    let mut at = rows.len();
    while at > 0 {
        at -= 1;
        if let Some(name) = full_name(slots, rows[at].key) {
            declare(alloc, prefixes, name, seen, pairs)?;
        }
    }
    Ok(())
}

/// Declares the prefix of a name, where it has one that is not declared yet.
fn declare<'a>(
    alloc: Global,
    prefixes: &Prefixes,
    name: &'a Name,
    seen: &mut IndexSet<&'a str>,
    pairs: &mut Vec<Pair>,
) -> Result<(), AllocError>
    requires { AreDeclared seen.old.keys (reverse pairs.old.items) }
    ensures pairs { OnOk result (reverse pairs.new.items ≡ with_prefix prefixes.now name.now.prefix name.now.meaning.space (reverse pairs.old.items)) }
    ensures seen { OnOk result (AreDeclared seen.new.keys (reverse pairs.new.items)) }
{
    let prefix = name.prefix.as_str();
    if prefix.is_empty() || prefix == "xml" {
        return Ok(());
    }
    if !seen.insert(prefix)? {
        return Ok(());
    }
    insert_declaration(alloc, prefixes, prefix, name.meaning.space, pairs)
}

/// Puts the declaration of a prefix in its place.
fn insert_declaration(
    alloc: Global,
    prefixes: &Prefixes,
    prefix: &str,
    space: u16,
    pairs: &mut Vec<Pair>,
) -> Result<(), AllocError>
    ensures { OnOk result (reverse pairs.new.items ≡ with_pair (pair (codes "xmlns:" ++ prefix.now) (space_text prefixes.now space)) (reverse pairs.old.items)) }
{
    let text = space_word(alloc, prefixes, space)?;
    let mut name = Word::from_str(alloc, "xmlns:")?;
    name.push_str(prefix)?;
    insert_pair(pairs, Pair { name, text })
}

/// The namespace with a number.
fn space_word(alloc: Global, prefixes: &Prefixes, space: u16) -> Result<Word, AllocError>
    ensures { IfOk result (λ text. text ≡ space_text prefixes.now space) }
{
    match prefixes.space_text(space) {
        Some(text) => Word::from_str(alloc, text),
        None => Ok(Word::new(alloc)),
    }
}

/// The attributes of an element in their order, with declarations, of which the greatest is first, and that of the default
/// namespace, where another one is in force above.
pub fn element_pairs(
    alloc: Global,
    prefixes: &Prefixes,
    above: u16,
    name: &Name,
    attributes: Vec<Pair>,
    declared: Vec<Pair>,
) -> Result<Vec<Pair>, AllocError>
    ensures { IfOk result (λ pairs. pairs.items ≡ with_default prefixes.now above name.now (with_pairs attributes.items (reverse declared.items))) }
{
    let mut pairs = with_pairs(attributes, declared)?;
    insert_default(alloc, prefixes, above, name, &mut pairs)?;
    Ok(reversed(pairs))
}

/// Puts the declaration of the default namespace in its place, where another one is in force above.
fn insert_default(
    alloc: Global,
    prefixes: &Prefixes,
    above: u16,
    name: &Name,
    pairs: &mut Vec<Pair>,
) -> Result<(), AllocError>
    ensures { OnOk result (reverse pairs.new.items ≡ with_default prefixes.now above name.now (reverse pairs.old.items)) }
{
    if !name.prefix.is_empty() || above == name.meaning.space {
        return Ok(());
    }
    let text = space_word(alloc, prefixes, name.meaning.space)?;
    let name = Word::from_str(alloc, "xmlns")?;
    insert_pair(pairs, Pair { name, text })
}

/// Attributes among declarations, the greatest first.
fn with_pairs(attributes: Vec<Pair>, declared: Vec<Pair>) -> Result<Vec<Pair>, AllocError>
    ensures { IfOk result (λ pairs. reverse pairs.items ≡ with_pairs attributes.items (reverse declared.items)) }
{
    let mut left = attributes;
    let mut pairs = declared;
    while let Some(pair) = left.pop() {
        insert_pair(&mut pairs, pair)?;
    }
    Ok(pairs)
}

fn reversed(pairs: Vec<Pair>) -> Vec<Pair>
    ensures { result.items ≡ reverse pairs.items }
{
    let mut turned = pairs;
    turned.reverse();
    turned
}

/// Puts a pair in its place among others, of which the greatest is first. Where its name is there already, that one stays.
fn insert_pair(pairs: &mut Vec<Pair>, pair: Pair) -> Result<(), AllocError>
    ensures { OnOk result (reverse pairs.new.items ≡ with_pair pair (reverse pairs.old.items)) }
{
    if let Some(at) = place_of(pairs, pair.name.as_str()) {
        pairs.insert(at, pair)?;
    }
    Ok(())
}

/// Where a name goes among pairs, of which the greatest is first, unless it is there already.
fn place_of(pairs: &[Pair], name: &str) -> Option<usize>
    ensures { IsPlace name.now pairs.now result }
{
    let mut at = pairs.len();
    while at > 0 {
        let other = pairs[at - 1].name.as_str();
        if name == other {
            return None;
        }
        if name < other {
            return Some(at);
        }
        at -= 1;
    }
    Some(at)
}
