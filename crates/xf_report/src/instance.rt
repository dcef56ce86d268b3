//! The lines of an instance in the text of a state.
ghost use Rattle.std.specs.Prelude.{◌≡◌, ◌++◌, ◌<◌, ◌^◌, IfOk, OnOk, codes, length, string_bytes};
ghost use Rattle.std.specs.List.{flat_map};
ghost use Rattle.xf_def_forest.specs.Forest.{IsLive};
ghost use Rattle.xf_def_forest.specs.Path.{path_of};
ghost use Rattle.xf_def_forest.specs.StringValue.{string_value};
ghost use Rattle.xf_def_forest.specs.Visit.{visits, parent_of};
ghost use Rattle.xf_def_machine.specs.Cycles.{counted_from};
ghost use Rattle.xf_def_machine.specs.Properties.{pair_text};
ghost use Rattle.xf_def_machine.specs.State.{State};
ghost use Rattle.xf_def_machine.specs.StateText.{instance_lines, line_of, marks_text, spaced};
ghost use Rattle.xf_report.specs.Lines.{IsOf, block_of, block_text, has_elements_at, line_at, line_by, text_line_if, value_text};
ghost use Rattle.xf_tree_paths.specs.Holding.{pair_among};
ghost use Rattle.xf_tree_contents.specs.Seen.{seen_content};

use crate::marks::push_marks;
use crate::nodes::nodes_at;
use crate::text::{push_quoted, push_string};
use std::alloc::{AllocError, Global};
use xf_def_forest::{NodeId, NodeList};
use xf_def_syntax::Instance;
use xf_def_ui::NodeMarks;
use xf_tree::{Forest, Seen};
use xf_tree_paths::{Paths, braces_of, pair_among, push_pair};

/// Appends the lines of the instance with this place among those of the form: one for it, and one for each of its elements, attributes
/// and texts beside elements. It costs what is written, and a look at each node.
pub fn push_instance<M: NodeMarks>(
    alloc: Global,
    text: &mut String,
    forest: &Forest,
    instances: &[Instance],
    marks: &M,
    place: u32,
) -> Result<(), AllocError>
    ensures { OnOk result ((s : State) → IsOf s forest.now.forest instances.now (M.marks_of marks.now) → string_bytes text.new ≡ string_bytes text.old ++ instance_lines s place) }
{
    forest.are_trees();
    let pair = pair_among(instances, place as usize);
    push_block(alloc, text, forest, marks, place, pair)
}

/// Appends the lines of all instances.
pub fn push_instances<M: NodeMarks>(
    alloc: Global,
    text: &mut String,
    forest: &Forest,
    instances: &[Instance],
    marks: &M,
) -> Result<(), AllocError>
    requires few { length instances.now < 2 ^ 32 }
    ensures { OnOk result (string_bytes text.new ≡ string_bytes text.old ++ flat_map (block_of (M.marks_of marks.now) forest.now.forest.nodes instances.now) (counted_from 0 (length instances.now))) }
{
    for place in 0..instances.len() {
        let pair = pair_among(instances, place);
        push_block(alloc, text, forest, marks, place as u32, pair)?;
    }
    Ok(())
}

/// Appends the lines of the instance with this place, which has these numbers.
fn push_block<M: NodeMarks>(
    alloc: Global,
    text: &mut String,
    forest: &Forest,
    marks: &M,
    place: u32,
    pair: (u64, u64),
) -> Result<(), AllocError>
    ensures { OnOk result (string_bytes text.new ≡ string_bytes text.old ++ block_text (M.marks_of marks.now) forest.now.forest.nodes place pair) }
{
    let braces = braces_of(alloc, pair)?;
    let nodes = nodes_at(alloc, forest, place)?;
    push_header(text, pair)?;
    push_nodes(alloc, text, forest, marks, braces.as_str(), &nodes)
}

fn push_header(text: &mut String, pair: (u64, u64)) -> Result<(), AllocError>
    ensures { OnOk result (string_bytes text.new ≡ string_bytes text.old ++ line_of (codes "instance " ++ pair_text pair)) }
{
    text.push_str("instance ")?;
    push_pair(text, pair)?;
    text.push_str("\n")
}

/// Appends the lines of these nodes.
fn push_nodes<M: NodeMarks>(
    alloc: Global,
    text: &mut String,
    forest: &Forest,
    marks: &M,
    braces: &str,
    nodes: &NodeList,
) -> Result<(), AllocError>
    ensures { OnOk result (string_bytes text.new ≡ string_bytes text.old ++ flat_map (line_at braces.now (M.marks_of marks.now) forest.now.forest.nodes) nodes.now) }
{
    let mut paths = Paths::new(alloc, forest);
    for at in 0..nodes.len() {
        push_node(alloc, text, forest, marks, &mut paths, braces, nodes.at(at))?;
    }
    Ok(())
}

/// Appends the line of a node, where it has one.
fn push_node<M: NodeMarks>(
    alloc: Global,
    text: &mut String,
    forest: &Forest,
    marks: &M,
    paths: &mut Paths<'_>,
    braces: &str,
    node: NodeId,
) -> Result<(), AllocError>
    requires forest { paths.old ≡ forest.now }
    ensures text { OnOk result (string_bytes text.new ≡ string_bytes text.old ++ line_at braces.now (M.marks_of marks.now) forest.now.forest.nodes node.number) }
    ensures forest { paths.new ≡ paths.old }
{
    match forest.content(node) {
        Some(content) => push_content(alloc, text, forest, marks, paths, braces, node, content),
        None => Ok(()),
    }
}

/// Appends the line of a node that is this, where it has one.
fn push_content<M: NodeMarks>(
    alloc: Global,
    text: &mut String,
    forest: &Forest,
    marks: &M,
    paths: &mut Paths<'_>,
    braces: &str,
    node: NodeId,
    content: Seen<'_>,
) -> Result<(), AllocError>
    requires live { IsLive node.number forest.now.forest }
    requires forest { paths.old ≡ forest.now }
    ensures text { OnOk result (string_bytes text.new ≡ string_bytes text.old ++ line_by braces.now (M.marks_of marks.now) (visits forest.now.forest.nodes) node.number (seen_content content.entry)) }
    ensures forest { paths.new ≡ paths.old }
{
    match content {
        Seen::Root => Ok(()),
        Seen::Text(own) => push_text_line(alloc, text, forest, paths, braces, node, own),
        Seen::Element(_) => push_marked_line(alloc, text, forest, marks, paths, braces, node),
        Seen::Attribute(_, _) => {
            push_marked_line(alloc, text, forest, marks, paths, braces, node)
        }
    }
}

/// Appends the line of a text, where elements stand beside it.
fn push_text_line(
    alloc: Global,
    text: &mut String,
    forest: &Forest,
    paths: &mut Paths<'_>,
    braces: &str,
    node: NodeId,
    own: &str,
) -> Result<(), AllocError>
    requires live { IsLive node.number forest.now.forest }
    requires forest { paths.old ≡ forest.now }
    ensures text { OnOk result (string_bytes text.new ≡ string_bytes text.old ++ text_line_if (has_elements_at (visits forest.now.forest.nodes) (parent_of node.number (visits forest.now.forest.nodes))) (braces.now ++ path_of node.number (visits forest.now.forest.nodes)) own.now) }
    ensures forest { paths.new ≡ paths.old }
{
    if !is_beside_elements(forest, paths, node)? {
        return Ok(());
    }
    text.push_str(braces)?;
    paths.push_path(text, node)?;
    text.push_str(" ")?;
    push_quoted(alloc, text, own)?;
    text.push_str("\n")
}

/// Appends the line of an element or attribute.
fn push_marked_line<M: NodeMarks>(
    alloc: Global,
    text: &mut String,
    forest: &Forest,
    marks: &M,
    paths: &mut Paths<'_>,
    braces: &str,
    node: NodeId,
) -> Result<(), AllocError>
    requires live { IsLive node.number forest.now.forest }
    requires forest { paths.old ≡ forest.now }
    ensures text { OnOk result (string_bytes text.new ≡ string_bytes text.old ++ line_of (braces.now ++ path_of node.number (visits forest.now.forest.nodes) ++ spaced (marks_text (M.marks_of marks.now node.number)) ++ value_text (visits forest.now.forest.nodes) node.number)) }
    ensures forest { paths.new ≡ paths.old }
{
    text.push_str(braces)?;
    paths.push_path(text, node)?;
    text.push_str(" ")?;
    push_marks(text, marks.marks(node))?;
    push_value(alloc, text, forest, paths, node)?;
    text.push_str("\n")
}

/// Whether the parent of a node has element children.
fn is_beside_elements(
    forest: &Forest,
    paths: &mut Paths<'_>,
    node: NodeId,
) -> Result<bool, AllocError>
    requires live { IsLive node.number forest.now.forest }
    requires forest { paths.old ≡ forest.now }
    ensures answer { IfOk result (λ answer. answer ≡ has_elements_at (visits forest.now.forest.nodes) (parent_of node.number (visits forest.now.forest.nodes))) }
    ensures forest { paths.new ≡ paths.old }
{
    match forest.parent(node) {
        Some(parent) => paths.has_elements(parent),
        None => Ok(false),
    }
}

/// Appends the value of an attribute, or of an element without element children.
fn push_value(
    alloc: Global,
    text: &mut String,
    forest: &Forest,
    paths: &mut Paths<'_>,
    node: NodeId,
) -> Result<(), AllocError>
    requires live { IsLive node.number forest.now.forest }
    requires forest { paths.old ≡ forest.now }
    ensures text { OnOk result (string_bytes text.new ≡ string_bytes text.old ++ value_text (visits forest.now.forest.nodes) node.number) }
    ensures forest { paths.new ≡ paths.old }
{
    if paths.has_elements(node)? {
        return Ok(());
    }
    text.push_str(" ")?;
    push_string(alloc, text, value_of(alloc, forest, node)?)
}

/// The string value of a node.
fn value_of(alloc: Global, forest: &Forest, node: NodeId) -> Result<String, AllocError>
    ensures { IfOk result (λ text. string_bytes text ≡ string_value node.number (visits forest.now.forest.nodes)) }
{
    let mut text = String::new(alloc);
    let mut pieces = forest.pieces(node);
    while let Some(piece) = pieces.next() {
        text.push_str(piece)?;
    }
    Ok(text)
}
