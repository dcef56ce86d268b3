//! Literal trees as the contents of nodes, with their names resolved.
ghost use Rattle.std.specs.Prelude.{◌≡◌, ◌≤◌, ◌+◌, ◌^◌, ◌++◌, ◌∷◌, [], filter_map, reverse, take, drop, length, IfOk, OnOk};
ghost use Rattle.xf_name.specs.Bindings.{resolved};
ghost use Rattle.xf_name.specs.Part.{kind_of};
ghost use Rattle.xf_def_forest.specs.declared.content.Content.TheVariants.{Element};
ghost use Rattle.xf_def_forest.specs.Limits.{size_of};
ghost use Rattle.xf_def_forest.specs.Plant.{contents_of, text_contents, default_number, default_below, element_name, attribute_in, in_order, in_place, at_depth};
ghost use Rattle.xf_def_forest.specs.Planted.{is_declaration};
ghost use Rattle.xf_tree_walks.specs.Nodes.{IsTree};
ghost use Rattle.xf_tree_literals.specs.Contents.{contents_of_element, contents_of_all, IsPart, AllLess, EndsNotLess, AllSmall};

use std::alloc::{AllocError, Global};
use xf_def_forest::{Content, Name};
use xf_name::{Lit, LitElement, NameFault, Pair, Prefixes, Word, at_colon};
use xf_tree_contents::{Part, lent, name_for, no_name, size_in, written_less};

/// The contents of a literal tree, where a name without a prefix has the namespace `space`.
pub fn contents_of_lit(
    alloc: Global,
    prefixes: &Prefixes,
    space: u16,
    lit: &Lit,
) -> Result<Vec<Part>, AllocError>
    ensures answer { IfOk result (λ tree. tree.items ≡ contents_of prefixes.now lit.now space 0) }
    ensures tree { IfOk result (λ tree. IsTree tree.items) }
{
    let mut tree = Vec::new(alloc);
    push_lit(alloc, prefixes, lit, space, 0, &mut tree)?;
    Ok(tree)
}

#[cycle(planting)]
fn push_lit(
    alloc: Global,
    prefixes: &Prefixes,
    lit: &Lit,
    space: u16,
    depth: u32,
    tree: &mut Vec<Part>,
) -> Result<(), AllocError>
    ensures added { OnOk result (tree.new.items ≡ tree.old.items ++ contents_of prefixes.now lit.now space depth) }
    ensures part { OnOk result (IsPart depth (contents_of prefixes.now lit.now space depth)) }
{
    match lit {
        Lit::Text(text) => push_text(alloc, text.as_str(), depth, tree),
        Lit::Element(element) => push_element(alloc, prefixes, element, space, depth, tree),
    }
}

#[cycle(planting)]
fn push_element(
    alloc: Global,
    prefixes: &Prefixes,
    element: &LitElement,
    space: u16,
    depth: u32,
    tree: &mut Vec<Part>,
) -> Result<(), AllocError>
    ensures added { OnOk result (tree.new.items ≡ tree.old.items ++ contents_of_element prefixes.now element.now space depth) }
    ensures part { OnOk result (IsPart depth (contents_of_element prefixes.now element.now space depth)) }
{
    let attributes = element.attributes.as_slice();
    let own = default_in(prefixes, attributes, space);
    let name = element_name(alloc, prefixes, element.name.as_str(), own)?;
    let below = push_named(name, depth, tree)?;
    push_attributes(alloc, prefixes, attributes, below, tree)?;
    push_all(
        alloc,
        prefixes,
        element.children.as_slice(),
        own,
        below,
        tree,
    )
}

#[cycle(planting)]
fn push_all(
    alloc: Global,
    prefixes: &Prefixes,
    lits: &[Lit],
    space: u16,
    depth: u32,
    tree: &mut Vec<Part>,
) -> Result<(), AllocError>
    ensures added { OnOk result (tree.new.items ≡ tree.old.items ++ contents_of_all prefixes.now lits.now space depth) }
    ensures part { OnOk result (IsPart depth (contents_of_all prefixes.now lits.now space depth)) }
{
    for lit in lits {
        push_lit(alloc, prefixes, lit, space, depth, tree)?;
    }
    Ok(())
}

/// Pushes a text, unless it is empty and below another node.
pub fn push_text(
    alloc: Global,
    text: &str,
    depth: u32,
    tree: &mut Vec<Part>,
) -> Result<(), AllocError>
    ensures added { OnOk result (tree.new.items ≡ tree.old.items ++ text_contents text.now 0 depth) }
    ensures part { OnOk result (IsPart depth (text_contents text.now 0 depth)) }
{
    if text.is_empty() && depth > 0 {
        return Ok(());
    }
    let text = Word::from_str(alloc, text)?;
    push_one(tree, depth, Content::Text(text))
}

/// Pushes the node of an element. The answer is the depth of what is below it.
pub fn push_named(name: Name, depth: u32, tree: &mut Vec<Part>) -> Result<u32, AllocError>
    ensures below { IfOk result (λ below. below ≡ depth + 1) }
    ensures added { IfOk result (λ below. tree.new.items ≡ tree.old.items ++ (depth, Element name) ∷ []) }
    ensures small { IfOk result (λ below. size_of (Element name) ≤ 2 ^ 66) }
{
    let below = match depth.checked_add(1) {
        Some(below) => below,
        None => return Err(AllocError),
    };
    push_one(tree, depth, Content::Element(name))?;
    Ok(below)
}

/// Pushes a node of a tree.
fn push_one(tree: &mut Vec<Part>, depth: u32, content: Content) -> Result<(), AllocError>
    ensures added { OnOk result (tree.new.items ≡ tree.old.items ++ (depth, content) ∷ []) }
    ensures small { size_of content ≤ 2 ^ 66 }
{
    let _ = size_in(lent(&content));
    tree.push((depth, content))?;
    Ok(())
}

/// The default namespace below attributes, where one is in force above.
fn default_in(prefixes: &Prefixes, attributes: &[Pair], above: u16) -> u16
    ensures { result ≡ default_below prefixes.now above attributes.now }
{
    for attribute in attributes {
        if attribute.name.is("xmlns") {
            return default_number(prefixes, attribute.text.as_str());
        }
    }
    above
}

fn default_number(prefixes: &Prefixes, uri: &str) -> u16
    ensures { result ≡ default_number prefixes.now uri.now }
{
    if uri.is_empty() {
        return 0;
    }
    match prefixes.space_of(uri) {
        Some(space) => space,
        None => 0,
    }
}

fn element_name(
    alloc: Global,
    prefixes: &Prefixes,
    written: &str,
    space: u16,
) -> Result<Name, AllocError>
    ensures { IfOk result (λ name. name ≡ element_name prefixes.now (resolved prefixes.now written.now space)) }
{
    match prefixes.resolve(written, space) {
        Ok(meaning) => name_for(alloc, prefixes, meaning),
        Err(NameFault::Memory) => Err(AllocError),
        Err(_) => no_name(alloc, prefixes),
    }
}

/// Pushes the attributes in the order of the bytes of their written names.
fn push_attributes(
    alloc: Global,
    prefixes: &Prefixes,
    attributes: &[Pair],
    depth: u32,
    tree: &mut Vec<Part>,
) -> Result<(), AllocError>
    ensures added { OnOk result (tree.new.items ≡ tree.old.items ++ at_depth depth (in_order (filter_map (attribute_in prefixes.now) attributes.now))) }
    ensures part { OnOk result (IsPart depth (at_depth depth (in_order (filter_map (attribute_in prefixes.now) attributes.now)))) }
{
    let sorted = sorted_attributes(alloc, prefixes, attributes)?;
    push_sorted(sorted, depth, tree)
}

/// The attributes by the bytes of their written names, the greatest first.
fn sorted_attributes(
    alloc: Global,
    prefixes: &Prefixes,
    attributes: &[Pair],
) -> Result<Vec<Content>, AllocError>
    ensures { IfOk result (λ sorted. reverse sorted.items ≡ in_order (filter_map (attribute_in prefixes.now) attributes.now)) }
{
    let mut sorted = Vec::new(alloc);
    let mut at = attributes.len();
    while at > 0 {
        at -= 1;
        if let Some(content) = attribute_of(alloc, prefixes, &attributes[at])? {
            insert_sorted(&mut sorted, content)?;
        }
    }
    Ok(sorted)
}

/// Puts a content in its place among others, of which the greatest is first.
pub fn insert_sorted(sorted: &mut Vec<Content>, content: Content) -> Result<(), AllocError>
    ensures { OnOk result (reverse sorted.new.items ≡ in_place content (reverse sorted.old.items)) }
{
    let at = place_of(sorted, &content);
    sorted.insert(at, content)?;
    Ok(())
}

/// Where a content goes among others, of which the greatest is first.
fn place_of(sorted: &[Content], content: &Content) -> usize
    ensures within { result ≤ length sorted.now }
    ensures less { AllLess content.now (drop result sorted.now) }
    ensures first { EndsNotLess content.now (take result sorted.now) }
{
    let mut at = sorted.len();
    while at > 0 {
        if !written_less(lent(&sorted[at - 1]), lent(content)) {
            return at;
        }
        at -= 1;
    }
    at
}

/// Pushes contents, of which the greatest is first, in their order.
pub fn push_sorted(sorted: Vec<Content>, depth: u32, tree: &mut Vec<Part>) -> Result<(), AllocError>
    ensures added { OnOk result (tree.new.items ≡ tree.old.items ++ at_depth depth (reverse sorted.items)) }
    ensures small { OnOk result (AllSmall (reverse sorted.items)) }
{
    let mut left = sorted;
    while let Some(content) = left.pop() {
        push_one(tree, depth, content)?;
    }
    Ok(())
}

/// An attribute that is no declaration, with its name resolved.
fn attribute_of(
    alloc: Global,
    prefixes: &Prefixes,
    pair: &Pair,
) -> Result<Option<Content>, AllocError>
    ensures { IfOk result (λ found. found ≡ attribute_in prefixes.now pair.now) }
{
    if declares(pair.name.as_str()) {
        return Ok(None);
    }
    match prefixes.resolve(pair.name.as_str(), 0) {
        Ok(meaning) => {
            let name = name_for(alloc, prefixes, meaning)?;
            let text = Word::from_str(alloc, pair.text.as_str())?;
            Ok(Some(Content::Attribute(name, text)))
        }
        Err(NameFault::Memory) => Err(AllocError),
        Err(_) => Ok(None),
    }
}

/// Whether an attribute of this name declares a namespace.
pub fn declares(written: &str) -> bool
    ensures { result ≡ is_declaration (kind_of written.now) }
{
    match at_colon(written) {
        Some((before, _)) => before == "xmlns",
        None => written == "xmlns",
    }
}
