//! The children of a node, each with its place among those of its kind.
ghost use Rattle.std.specs.Prelude.{IfSome, Option, Some, ◌≡◌, ◌+◌, ◌<◌, ◌^◌, ℕ, suc, List, [], ◌∷◌, IfOk, OnOk, length, nat_lt, if◌then◌else◌};
ghost use Rattle.std.specs.List.{All, list_any};
ghost use Rattle.std.specs.Str.{bytes_eq};
ghost use Rattle.xf_def_forest.specs.Axis.{axis_of};
ghost use Rattle.xf_def_forest.specs.Forest.{IsLive, content_at, is_element, written};
ghost use Rattle.xf_def_forest.specs.Path.{bracketed};
ghost use Rattle.xf_def_forest.specs.Shape.{has_elements};
ghost use Rattle.xf_def_forest.specs.Visit.{visits};
ghost use Rattle.xf_def_forest.specs.declared.content.Content.{Content};
ghost use Rattle.xf_tree_contents.specs.Seen.{seen_content};
ghost use Rattle.xf_def_forest.specs.WellFormed.{HasTrees};
ghost use Rattle.xf_tree_paths.specs.Family.{HasKids, IsKid, IsSort, count_in, index_text, is_named, meets, tallied};

use crate::written::{Tally, add, add_name, tallied, written};
use std::alloc::{AllocError, Global};
use std::collections::HashMap;
use xf_def_forest::{Name, NodeId, NodeList};
use xf_name::Axis;
use xf_tree::{Forest, Seen};

/// A child, what it is, and what its path has in brackets: for an element its place among the elements beside it whose names are
/// written alike, where there are others, for a text that among the texts beside it.
#[derive(Clone, Copy, Debug)]
pub struct Kid<'a> {
    pub number: u128,
    pub sort: Sort<'a>,
    pub index: Option<usize>,
}

/// The children of a node.
#[derive(Drop)]
pub struct Family<'a> {
    /// The one that comes next.
    pub next: Option<Kid<'a>>,
    /// Those behind it, from the last one back.
    pub later: Vec<Kid<'a>>,
    /// Whether one is an element.
    pub has_elements: bool,
}

/// The children of a node.
pub fn family_of(alloc: Global, forest: &Forest, node: NodeId) -> Result<Family<'_>, AllocError>
    requires { IsLive node.number forest.now.forest }
    ensures kids { IfOk result (λ family. HasKids forest.now.forest.nodes node.number family) }
    ensures elements { IfOk result (λ family. family.has_elements ≡ has_elements (visits forest.now.forest.nodes) node.number) }
{
    forest.are_trees();
    let mut walk = forest.axis(node, Axis::Child);
    let Some(first) = walk.next() else {
        return Ok(Family {
            next: None,
            later: Vec::new(alloc),
            has_elements: false,
        });
    };
    let Some(second) = walk.next() else {
        return Ok(only_child(alloc, forest, node, first));
    };
    let mut children = NodeList::new(alloc);
    children.push(first)?;
    children.push(second)?;
    while let Some(child) = walk.next() {
        children.push(child)?;
    }
    several(alloc, forest, node, &children)
}

/// Several children.
fn several<'a>(
    alloc: Global,
    forest: &'a Forest,
    node: NodeId,
    children: &NodeList,
) -> Result<Family<'a>, AllocError>
    requires live { IsLive node.number forest.now.forest }
    requires trees { HasTrees forest.now.forest }
    requires children { children.now ≡ axis_of Axis.Child node.number (visits forest.now.forest.nodes) }
    ensures kids { IfOk result (λ family. HasKids forest.now.forest.nodes node.number family) }
    ensures elements { IfOk result (λ family. family.has_elements ≡ has_elements (visits forest.now.forest.nodes) node.number) }
{
    let mut kids = kids_of(alloc, forest, node, children)?;
    kids.reverse();
    Ok(Family {
        next: kids.pop(),
        later: kids,
        has_elements: has_element(forest, children),
    })
}

/// What a node is, as far as it is counted.
#[derive(Clone, Copy, Debug)]
pub enum Sort<'a> {
    Element(&'a Name),
    Text(&'a str),
    Other,
}

fn sort_of(forest: &Forest, node: NodeId) -> Sort<'_>
    ensures { IsSort (content_at node.number forest.now.forest.nodes) result }
{
    match forest.content(node) {
        Some(content) => match content {
            Seen::Element(name) => Sort::Element(name),
            Seen::Text(text) => Sort::Text(text),
            _ => Sort::Other,
        },
        None => Sort::Other,
    }
}

/// What a node of a sort is, where it is counted.
pub fn seen_of(sort: Sort<'_>) -> Option<Seen<'_>>
    ensures { (content : Option Content) → IsSort content sort.entry → IfSome result (λ seen. Some (seen_content seen) ≡ content) }
{
    match sort {
        Sort::Element(name) => Some(Seen::Element(name)),
        Sort::Text(text) => Some(Seen::Text(text)),
        Sort::Other => None,
    }
}

/// Whether one of these nodes is an element.
fn has_element(forest: &Forest, nodes: &NodeList) -> bool
    ensures { result ≡ list_any (λ n. meets is_element (content_at n forest.now.forest.nodes)) nodes.now }
{
    for at in 0..nodes.len() {
        match sort_of(forest, nodes.at(at)) {
            Sort::Element(_) => return true,
            Sort::Text(_) => continue,
            Sort::Other => continue,
        }
    }
    false
}

/// The one child that there is. Nothing has to be counted for it.
fn only_child<'a>(alloc: Global, forest: &'a Forest, node: NodeId, child: NodeId) -> Family<'a>
    requires live { IsLive node.number forest.now.forest }
    requires trees { HasTrees forest.now.forest }
    requires children { child.number ∷ [] ≡ axis_of Axis.Child node.number (visits forest.now.forest.nodes) }
    ensures kids { HasKids forest.now.forest.nodes node.number result }
    ensures elements { result.has_elements ≡ has_elements (visits forest.now.forest.nodes) node.number }
{
    let sort = sort_of(forest, child);
    let (index, is_element) = match sort {
        Sort::Element(_) => (None, true),
        Sort::Text(_) => (Some(1), false),
        Sort::Other => (None, false),
    };
    Family {
        next: Some(Kid {
            number: child.number,
            sort,
            index,
        }),
        later: Vec::new(alloc),
        has_elements: is_element,
    }
}

/// The children in document order, with their indexes.
fn kids_of<'a>(
    alloc: Global,
    forest: &'a Forest,
    node: NodeId,
    children: &NodeList,
) -> Result<Vec<Kid<'a>>, AllocError>
    requires trees { HasTrees forest.now.forest }
    requires children { children.now ≡ axis_of Axis.Child node.number (visits forest.now.forest.nodes) }
    ensures { IfOk result (λ kids. All (IsKid forest.now.forest.nodes node.number) kids.items) }
{
    let totals = totals_of(alloc, forest, children)?;
    let mut seen = HashMap::new(alloc);
    let mut texts = 0;
    let mut kids = Vec::with_capacity(alloc, children.len())?;
    for at in 0..children.len() {
        let child = children.at(at);
        let sort = sort_of(forest, child);
        let index = match sort {
            Sort::Element(name) => next_place(alloc, &totals, &mut seen, name)?,
            Sort::Text(_) => {
                texts += 1;
                Some(texts)
            }
            Sort::Other => None,
        };
        kids.push(Kid {
            number: child.number,
            sort,
            index,
        })?;
    }
    Ok(kids)
}

/// How often each written name is there among these nodes.
fn totals_of(alloc: Global, forest: &Forest, nodes: &NodeList) -> Result<Tally, AllocError>
    ensures { IfOk result (λ tally. (w : List ℕ) → tallied tally w ≡ count_in (is_named w) forest.now.forest.nodes nodes.now) }
{
    let mut tally = HashMap::new(alloc);
    for at in 0..nodes.len() {
        match sort_of(forest, nodes.at(at)) {
            Sort::Element(name) => add_name(alloc, &mut tally, name)?,
            Sort::Text(_) => continue,
            Sort::Other => continue,
        }
    }
    Ok(tally)
}

/// The place of the next element with this name, where there are several. It is counted.
fn next_place(
    alloc: Global,
    totals: &Tally,
    seen: &mut Tally,
    name: &Name,
) -> Result<Option<usize>, AllocError>
    requires fits { tallied seen.old (written name.now) + 1 < 2 ^ 64 }
    requires within { tallied seen.old (written name.now) < tallied totals.now (written name.now) }
    ensures place { IfOk result (λ place. index_text place ≡ (if nat_lt 1 (tallied totals.now (written name.now)) then bracketed (suc (tallied seen.old (written name.now))) else [])) }
    ensures seen { OnOk result ((w : List ℕ) → tallied seen.new w ≡ (if bytes_eq w (written name.now) then 1 else 0) + tallied seen.old w) }
{
    if name.prefix.is_empty() {
        return place_of(alloc, totals, seen, name.meaning.local.as_str());
    }
    let text = written(alloc, name)?;
    place_of(alloc, totals, seen, text.as_str())
}

/// The same of a name as it is written. One that is not the first is one of several, so that nothing is looked up for it.
fn place_of(
    alloc: Global,
    totals: &Tally,
    seen: &mut Tally,
    name: &str,
) -> Result<Option<usize>, AllocError>
    requires fits { tallied seen.old name.now + 1 < 2 ^ 64 }
    requires within { tallied seen.old name.now < tallied totals.now name.now }
    ensures place { IfOk result (λ place. index_text place ≡ (if nat_lt 1 (tallied totals.now name.now) then bracketed (suc (tallied seen.old name.now)) else [])) }
    ensures seen { OnOk result ((w : List ℕ) → tallied seen.new w ≡ (if bytes_eq w name.now then 1 else 0) + tallied seen.old w) }
{
    let place = add(alloc, seen, name)?;
    if place > 1 || tallied(totals, name) > 1 {
        return Ok(Some(place));
    }
    Ok(None)
}
