//! Literal trees with resolved names as detached trees.
ghost use Rattle.std.specs.Prelude.{◌≡◌, ◌++◌, map, reverse, IfOk, OnOk};
ghost use Rattle.xf_def_forest.specs.Plant.{in_order, at_depth, name_for};
ghost use Rattle.xf_def_forest.specs.Planted.{contents_of_bare, bare_attribute};
ghost use Rattle.xf_tree_walks.specs.Nodes.{IsTree};
ghost use Rattle.xf_tree_literals.specs.Contents.{bare_element_at, bare_all_at, IsPart};

use crate::plant::{insert_sorted, push_named, push_sorted, push_text};
use std::alloc::{AllocError, Global};
use xf_def_forest::{Bare, BareAttribute, BareElement, Content, Name};
use xf_name::{Prefixes, QName, Word};
use xf_tree_contents::{Part, duplicate_meaning, name_for};

/// The contents of a literal tree with resolved names.
pub fn contents_of_bare(
    alloc: Global,
    prefixes: &Prefixes,
    tree: &Bare,
) -> Result<Vec<Part>, AllocError>
    ensures answer { IfOk result (λ contents. contents.items ≡ contents_of_bare prefixes.now tree.now 0 0) }
    ensures tree { IfOk result (λ contents. IsTree contents.items) }
{
    let mut contents = Vec::new(alloc);
    push_bare(alloc, prefixes, tree, 0, &mut contents)?;
    Ok(contents)
}

#[cycle(bare_planting)]
fn push_bare(
    alloc: Global,
    prefixes: &Prefixes,
    tree: &Bare,
    depth: u32,
    contents: &mut Vec<Part>,
) -> Result<(), AllocError>
    ensures added { OnOk result (contents.new.items ≡ contents.old.items ++ contents_of_bare prefixes.now tree.now 0 depth) }
    ensures part { OnOk result (IsPart depth (contents_of_bare prefixes.now tree.now 0 depth)) }
{
    match tree {
        Bare::Text(text) => push_text(alloc, text.as_str(), depth, contents),
        Bare::Element(element) => push_element(alloc, prefixes, element, depth, contents),
    }
}

#[cycle(bare_planting)]
fn push_element(
    alloc: Global,
    prefixes: &Prefixes,
    element: &BareElement,
    depth: u32,
    contents: &mut Vec<Part>,
) -> Result<(), AllocError>
    ensures added { OnOk result (contents.new.items ≡ contents.old.items ++ bare_element_at prefixes.now element.now depth) }
    ensures part { OnOk result (IsPart depth (bare_element_at prefixes.now element.now depth)) }
{
    let name = name_of(alloc, prefixes, &element.name)?;
    let below = push_named(name, depth, contents)?;
    push_attributes(
        alloc,
        prefixes,
        element.attributes.as_slice(),
        below,
        contents,
    )?;
    push_all(
        alloc,
        prefixes,
        element.children.as_slice(),
        below,
        contents,
    )
}

#[cycle(bare_planting)]
fn push_all(
    alloc: Global,
    prefixes: &Prefixes,
    trees: &[Bare],
    depth: u32,
    contents: &mut Vec<Part>,
) -> Result<(), AllocError>
    ensures added { OnOk result (contents.new.items ≡ contents.old.items ++ bare_all_at prefixes.now trees.now depth) }
    ensures part { OnOk result (IsPart depth (bare_all_at prefixes.now trees.now depth)) }
{
    for tree in trees {
        push_bare(alloc, prefixes, tree, depth, contents)?;
    }
    Ok(())
}

/// Pushes the attributes in the order of the bytes of their written names.
fn push_attributes(
    alloc: Global,
    prefixes: &Prefixes,
    attributes: &[BareAttribute],
    depth: u32,
    contents: &mut Vec<Part>,
) -> Result<(), AllocError>
    ensures added { OnOk result (contents.new.items ≡ contents.old.items ++ at_depth depth (in_order (map (bare_attribute prefixes.now) attributes.now))) }
    ensures part { OnOk result (IsPart depth (at_depth depth (in_order (map (bare_attribute prefixes.now) attributes.now)))) }
{
    let sorted = sorted_attributes(alloc, prefixes, attributes)?;
    push_sorted(sorted, depth, contents)
}

/// The attributes by the bytes of their written names, the greatest first.
fn sorted_attributes(
    alloc: Global,
    prefixes: &Prefixes,
    attributes: &[BareAttribute],
) -> Result<Vec<Content>, AllocError>
    ensures { IfOk result (λ sorted. reverse sorted.items ≡ in_order (map (bare_attribute prefixes.now) attributes.now)) }
{
    let mut sorted = Vec::new(alloc);
    let mut at = attributes.len();
    while at > 0 {
        at -= 1;
        let content = attribute_of(alloc, prefixes, &attributes[at])?;
        insert_sorted(&mut sorted, content)?;
    }
    Ok(sorted)
}

fn attribute_of(
    alloc: Global,
    prefixes: &Prefixes,
    attribute: &BareAttribute,
) -> Result<Content, AllocError>
    ensures { IfOk result (λ content. content ≡ bare_attribute prefixes.now attribute.now) }
{
    let name = name_of(alloc, prefixes, &attribute.name)?;
    let text = Word::from_str(alloc, attribute.text.as_str())?;
    Ok(Content::Attribute(name, text))
}

/// A resolved name as that of a node.
fn name_of(alloc: Global, prefixes: &Prefixes, meaning: &QName) -> Result<Name, AllocError>
    ensures { IfOk result (λ name. name ≡ name_for prefixes.now meaning.now) }
{
    let meaning = duplicate_meaning(alloc, meaning)?;
    name_for(alloc, prefixes, meaning)
}
