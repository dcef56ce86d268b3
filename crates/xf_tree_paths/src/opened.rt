//! Paths of nodes, by what is open.
ghost use Rattle.std.specs.Prelude.{◌≡◌, ◌++◌, List, IfOk, IfSome, OnOk, string_bytes, true, false};
ghost use Rattle.xf_def_forest.specs.Forest.{IsLive, content_at, is_attribute, is_root};
ghost use Rattle.xf_def_forest.specs.Path.{or_slash, path_of};
ghost use Rattle.xf_def_forest.specs.Shape.{has_elements};
ghost use Rattle.xf_def_forest.specs.Visit.{Visit, visits, parent_of};
ghost use Rattle.xf_tree_paths.specs.Opened.{stem_of, IsOpen, AllOpen};
ghost use Rattle.xf_tree_paths.specs.Family.{IsSort, index_of, index_text, meets};
ghost use Rattle.xf_def_forest.specs.declared.content.Node.{Node};
ghost use Rattle.xf_tree_contents.specs.Seen.{seen_content};

use crate::family::{Family, Kid, family_of, seen_of};
use crate::written::{joined, push_step};
use std::alloc::{AllocError, Global};
use std::marker::Model;
use xf_def_forest::{Kind, NodeId};
use xf_tree::{Forest, Seen};

/// A node whose path is at hand, with its children that did not come yet.
#[derive(Drop)]
pub struct OpenNode<'a> {
    pub number: u128,
    /// Its path, empty for a root.
    pub stem: String,
    pub family: Family<'a>,
}

/// The paths of nodes of a forest. Where they are asked for in document order, each costs what it prints, and a look at each child;
/// elsewhere it costs a look at all siblings on the way up. Contracts see the forest.
#[derive(Drop)]
pub struct Paths<'a> {
    alloc: Global,
    forest: &'a Forest,
    // Each one below the one before it.
    nodes: Vec<OpenNode<'a>>,
}

impl<'a> Model for Paths<'a> {
    ghost use Rattle.xf_def_forest.specs.Texts.{Keeping};

    ghost Value = { Keeping };

    ghost use Rattle.xf_def_forest.specs.Visit.{visits};
    ghost use Rattle.xf_tree_paths.specs.Opened.{AllOpen};

    ghost view = { λ p. p.forest.now };

    ghost invariant = { λ p. AllOpen p.forest.now.forest.nodes p.nodes.items };
}

impl<'a> Paths<'a> {
    /// Takes no memory.
    pub fn new(alloc: Global, forest: &'a Forest) -> Self
        ensures { result ≡ forest.now }
    {
        Paths {
            alloc,
            forest,
            nodes: Vec::new(alloc),
        }
    }

    /// Appends the path of a node, from the top of its tree.
    pub fn push_path(&mut self, text: &mut String, node: NodeId) -> Result<(), AllocError>
        requires live { IsLive node.number self.old.forest }
        ensures text { OnOk result (string_bytes text.new ≡ string_bytes text.old ++ path_of node.number (visits self.old.forest.nodes)) }
        ensures forest { self.new ≡ self.old }
    {
        push_path(self.alloc, self.forest, &mut self.nodes, text, node)
    }

    /// Whether the node has element children. It is at hand where the node's path came last, or that of a node below it.
    pub fn has_elements(&mut self, node: NodeId) -> Result<bool, AllocError>
        requires live { IsLive node.number self.old.forest }
        ensures answer { IfOk result (λ answer. answer ≡ has_elements (visits self.old.forest.nodes) node.number) }
        ensures forest { self.new ≡ self.old }
    {
        has_elements(self.alloc, self.forest, &mut self.nodes, node)
    }
}

/// Appends a path that is at hand: a root's is a slash.
fn push_stem(text: &mut String, stem: &String) -> Result<(), AllocError>
    ensures { OnOk result (string_bytes text.new ≡ string_bytes text.old ++ or_slash (string_bytes stem.now)) }
{
    if stem.is_empty() {
        return text.push_str("/");
    }
    text.push_str(stem.as_str())
}

fn has_elements<'a>(
    alloc: Global,
    forest: &'a Forest,
    nodes: &mut Vec<OpenNode<'a>>,
    node: NodeId,
) -> Result<bool, AllocError>
    requires live { IsLive node.number forest.now.forest }
    requires nodes { AllOpen forest.now.forest.nodes nodes.old.items }
    ensures nodes { AllOpen forest.now.forest.nodes nodes.new.items }
    ensures answer { IfOk result (λ answer. answer ≡ has_elements (visits forest.now.forest.nodes) node.number) }
{
    forest.are_trees();
    match forest.content(node) {
        // Nothing stands below these, and they are never open.
        Some(Seen::Attribute(_, _)) => Ok(false),
        Some(Seen::Text(_)) => Ok(false),
        _ => has_open_elements(alloc, forest, nodes, node),
    }
}

fn has_open_elements<'a>(
    alloc: Global,
    forest: &'a Forest,
    nodes: &mut Vec<OpenNode<'a>>,
    node: NodeId,
) -> Result<bool, AllocError>
    requires live { IsLive node.number forest.now.forest }
    requires nodes { AllOpen forest.now.forest.nodes nodes.old.items }
    ensures nodes { AllOpen forest.now.forest.nodes nodes.new.items }
    ensures answer { IfOk result (λ answer. answer ≡ has_elements (visits forest.now.forest.nodes) node.number) }
{
    let one = take_open(alloc, forest, nodes, node)?;
    let answer = one.family.has_elements;
    nodes.push(one)?;
    Ok(answer)
}

/// Appends the path of a node. An element is open then, since the paths of its children begin with its own.
fn push_path<'a>(
    alloc: Global,
    forest: &'a Forest,
    nodes: &mut Vec<OpenNode<'a>>,
    text: &mut String,
    node: NodeId,
) -> Result<(), AllocError>
    requires live { IsLive node.number forest.now.forest }
    requires nodes { AllOpen forest.now.forest.nodes nodes.old.items }
    ensures nodes { AllOpen forest.now.forest.nodes nodes.new.items }
    ensures text { OnOk result (string_bytes text.new ≡ string_bytes text.old ++ path_of node.number (visits forest.now.forest.nodes)) }
{
    let stem = push_path_in(alloc, forest, nodes, text, node)?;
    match stem {
        Some(stem) => push_open(alloc, forest, nodes, node, stem),
        None => Ok(()),
    }
}

/// The same, which gives the path of an element instead of opening it. Of a child that comes in turn the parent is what is open, and is not looked for.
fn push_path_in<'a>(
    alloc: Global,
    forest: &'a Forest,
    nodes: &mut Vec<OpenNode<'a>>,
    text: &mut String,
    node: NodeId,
) -> Result<Option<String>, AllocError>
    requires live { IsLive node.number forest.now.forest }
    requires nodes { AllOpen forest.now.forest.nodes nodes.old.items }
    ensures nodes { AllOpen forest.now.forest.nodes nodes.new.items }
    ensures text { OnOk result (string_bytes text.new ≡ string_bytes text.old ++ path_of node.number (visits forest.now.forest.nodes)) }
    ensures stem { IfOk result (λ kept. IfSome kept (λ stem. string_bytes stem ≡ stem_of (visits forest.now.forest.nodes) node.number)) }
{
    if comes_next(nodes, node) {
        close(nodes);
        if let Some(one) = nodes.last_mut() {
            if let Some(kid) = turn_of(one, node) {
                if let Some(content) = seen_of(kid.sort) {
                    return push_known(alloc, forest, one, text, node, content, kid.index);
                }
            }
        }
    }
    push_below(alloc, forest, nodes, text, node)
}

/// Whether a node is the child that comes next. It tells only what is tried first: nothing is promised of it.
fn comes_next(nodes: &[OpenNode<'_>], node: NodeId) -> bool {
    for one in nodes.iter().rev() {
        if let Some(kid) = one.family.next {
            return kid.number == node.number;
        }
    }
    false
}

/// Closes what has no more children to come.
fn close(nodes: &mut Vec<OpenNode<'_>>)
    ensures { (all : List Node) → AllOpen all nodes.old.items → AllOpen all nodes.new.items }
{
    while let Some(one) = nodes.last() {
        if one.family.next.is_some() {
            return;
        }
        nodes.pop();
    }
}

/// Appends the path of a node by that of its parent, which is looked for.
fn push_below<'a>(
    alloc: Global,
    forest: &'a Forest,
    nodes: &mut Vec<OpenNode<'a>>,
    text: &mut String,
    node: NodeId,
) -> Result<Option<String>, AllocError>
    requires live { IsLive node.number forest.now.forest }
    requires nodes { AllOpen forest.now.forest.nodes nodes.old.items }
    ensures nodes { AllOpen forest.now.forest.nodes nodes.new.items }
    ensures text { OnOk result (string_bytes text.new ≡ string_bytes text.old ++ path_of node.number (visits forest.now.forest.nodes)) }
    ensures stem { IfOk result (λ kept. IfSome kept (λ stem. string_bytes stem ≡ stem_of (visits forest.now.forest.nodes) node.number)) }
{
    let Some(content) = forest.content(node) else {
        return push_fresh(alloc, forest, text, node);
    };
    let Some(parent) = forest.parent(node) else {
        return push_fresh(alloc, forest, text, node);
    };
    let mut one = take_open(alloc, forest, nodes, parent)?;
    let stem = push_child(alloc, forest, &mut one, text, node, content);
    nodes.push(one)?;
    stem
}

/// Closes what is open down to this node, and takes it out.
fn take_open<'a>(
    alloc: Global,
    forest: &'a Forest,
    nodes: &mut Vec<OpenNode<'a>>,
    node: NodeId,
) -> Result<OpenNode<'a>, AllocError>
    requires live { IsLive node.number forest.now.forest }
    requires nodes { AllOpen forest.now.forest.nodes nodes.old.items }
    ensures nodes { AllOpen forest.now.forest.nodes nodes.new.items }
    ensures one { IfOk result (λ one. IsOpen forest.now.forest.nodes one) }
    ensures number { IfOk result (λ one. one.number ≡ node.number) }
{
    while let Some(one) = nodes.pop() {
        if one.number == node.number {
            return Ok(one);
        }
    }
    let stem = fresh_stem(alloc, forest, node)?;
    with_children(alloc, forest, node, stem)
}

/// Opens a node below those that are open.
fn push_open<'a>(
    alloc: Global,
    forest: &'a Forest,
    nodes: &mut Vec<OpenNode<'a>>,
    node: NodeId,
    stem: String,
) -> Result<(), AllocError>
    requires live { IsLive node.number forest.now.forest }
    requires stem { string_bytes stem ≡ stem_of (visits forest.now.forest.nodes) node.number }
    requires nodes { AllOpen forest.now.forest.nodes nodes.old.items }
    ensures nodes { AllOpen forest.now.forest.nodes nodes.new.items }
{
    let one = with_children(alloc, forest, node, stem)?;
    nodes.push(one)?;
    Ok(())
}

/// A node with its children.
fn with_children<'a>(
    alloc: Global,
    forest: &'a Forest,
    node: NodeId,
    stem: String,
) -> Result<OpenNode<'a>, AllocError>
    requires live { IsLive node.number forest.now.forest }
    requires stem { string_bytes stem ≡ stem_of (visits forest.now.forest.nodes) node.number }
    ensures one { IfOk result (λ one. IsOpen forest.now.forest.nodes one) }
    ensures number { IfOk result (λ one. one.number ≡ node.number) }
{
    let family = family_of(alloc, forest, node)?;
    Ok(OpenNode {
        number: node.number,
        stem,
        family,
    })
}

/// The path of a node of which nothing is at hand, empty for a root.
fn fresh_stem(alloc: Global, forest: &Forest, node: NodeId) -> Result<String, AllocError>
    requires live { IsLive node.number forest.now.forest }
    ensures { IfOk result (λ stem. string_bytes stem ≡ stem_of (visits forest.now.forest.nodes) node.number) }
{
    forest.are_trees();
    if is_root(forest, node) {
        return Ok(String::new(alloc));
    }
    let path = forest.path(node)?;
    String::from_str(alloc, path.as_str())
}

fn is_root(forest: &Forest, node: NodeId) -> bool
    ensures { result ≡ meets is_root (content_at node.number forest.now.forest.nodes) }
{
    match forest.content(node) {
        Some(content) => match content {
            Seen::Root => true,
            _ => false,
        },
        None => false,
    }
}

/// Appends the path of a node of which nothing is at hand.
fn push_fresh(
    alloc: Global,
    forest: &Forest,
    text: &mut String,
    node: NodeId,
) -> Result<Option<String>, AllocError>
    requires live { IsLive node.number forest.now.forest }
    ensures text { OnOk result (string_bytes text.new ≡ string_bytes text.old ++ path_of node.number (visits forest.now.forest.nodes)) }
    ensures stem { IfOk result (λ kept. IfSome kept (λ stem. string_bytes stem ≡ stem_of (visits forest.now.forest.nodes) node.number)) }
{
    let stem = fresh_stem(alloc, forest, node)?;
    push_stem(text, &stem)?;
    match forest.kind(node) {
        Kind::Element => Ok(Some(stem)),
        _ => Ok(None),
    }
}

/// Appends the path of a node, by that of its parent. An attribute has no index, and a child that comes in turn has it at hand.
fn push_child(
    alloc: Global,
    forest: &Forest,
    parent: &mut OpenNode<'_>,
    text: &mut String,
    node: NodeId,
    content: Seen<'_>,
) -> Result<Option<String>, AllocError>
    requires live { IsLive node.number forest.now.forest }
    requires one { IsOpen forest.now.forest.nodes parent.old }
    requires parent { parent_of node.number (visits forest.now.forest.nodes) ≡ Some parent.old.number }
    requires content { Some (seen_content content) ≡ content_at node.number forest.now.forest.nodes }
    ensures text { OnOk result (string_bytes text.new ≡ string_bytes text.old ++ path_of node.number (visits forest.now.forest.nodes)) }
    ensures stem { IfOk result (λ kept. IfSome kept (λ stem. string_bytes stem ≡ stem_of (visits forest.now.forest.nodes) node.number)) }
    ensures one { IsOpen forest.now.forest.nodes parent.new }
{
    let index = match content {
        Seen::Attribute(_, _) => Some(None),
        _ => match turn_of(parent, node) {
            Some(kid) => Some(kid.index),
            None => None,
        },
    };
    match index {
        Some(index) => push_known(alloc, forest, parent, text, node, content, index),
        None => push_fresh(alloc, forest, text, node),
    }
}

/// The child that comes next, where it is this node. It has come then.
fn turn_of<'a>(one: &mut OpenNode<'a>, node: NodeId) -> Option<Kid<'a>>
    ensures one { (nodes : List Node) → IsOpen nodes one.old → IsOpen nodes one.new }
    ensures number { one.new.number ≡ one.old.number }
    ensures sort { (nodes : List Node) → IsOpen nodes one.old → IfSome result (λ kid. IsSort (content_at node.number nodes) kid.sort) }
    ensures index { (nodes : List Node) → IsOpen nodes one.old → IfSome result (λ kid. index_text kid.index ≡ index_of (visits nodes) node.number) }
    ensures parent { (nodes : List Node) → IsOpen nodes one.old → IfSome result (λ kid. parent_of node.number (visits nodes) ≡ Some one.old.number) }
{
    let kid = one.family.next?;
    if kid.number != node.number {
        return None;
    }
    one.family.next = one.family.later.pop();
    Some(kid)
}

/// Appends the path of a node, by that of its parent and what it has in brackets. An element's path is kept, since those of its children begin
/// with it.
fn push_known(
    alloc: Global,
    forest: &Forest,
    parent: &OpenNode<'_>,
    text: &mut String,
    node: NodeId,
    content: Seen<'_>,
    index: Option<usize>,
) -> Result<Option<String>, AllocError>
    requires one { IsOpen forest.now.forest.nodes parent.now }
    requires parent { parent_of node.number (visits forest.now.forest.nodes) ≡ Some parent.now.number }
    requires content { Some (seen_content content) ≡ content_at node.number forest.now.forest.nodes }
    requires index { is_attribute (seen_content content) ≡ false → index_text index ≡ index_of (visits forest.now.forest.nodes) node.number }
    ensures text { OnOk result (string_bytes text.new ≡ string_bytes text.old ++ path_of node.number (visits forest.now.forest.nodes)) }
    ensures stem { IfOk result (λ kept. IfSome kept (λ stem. string_bytes stem ≡ stem_of (visits forest.now.forest.nodes) node.number)) }
{
    forest.are_trees();
    match content {
        Seen::Element(_) => {
            let stem = joined(alloc, parent.stem.as_str(), content, index)?;
            text.push_str(stem.as_str())?;
            Ok(Some(stem))
        }
        _ => {
            text.push_str(parent.stem.as_str())?;
            push_step(text, content, index)?;
            Ok(None)
        }
    }
}
