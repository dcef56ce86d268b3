//! What a submission sends (XForms 1.1, section 11.2): the selected element with what is below it, without the irrelevant nodes.

ghost use Rattle.std.specs.Prelude.{◌≡◌, ◌++◌, ◌∷◌, [], if◌then◌else◌, not, IfOk, OnOk, Some, filter, find, map, option_map};
ghost use Rattle.xf_base.specs.Limits.{string_limit};
ghost use Rattle.xf_def_values.specs.Bounded.{GivesBounded};
ghost use Rattle.xf_def_forest.specs.declared.content.Kind.TheVariants as kind;
ghost use Rattle.xf_def_forest.specs.Forest.{IsLive, kind_at};
ghost use Rattle.xf_def_forest.specs.Visit.{visits};
ghost use Rattle.xf_def_model.specs.Submitted as model;
ghost use Rattle.xf_submit.specs.Selecting.{IsOfElement, relevant_by, scope_over, seen_chosen, valid_by};

use crate::nodes::{is_element, nodes_below};
use crate::sources::selected_node;
use std::alloc::AllocError;
use xf_def_forest::{NodeId, NodeList};
use xf_def_syntax::Submission;
use xf_def_ui::NodeMarks;
use xf_eval::EvalFault;
use xf_eval_context::Over;

/// An element, and what is left of its tree.
#[derive(Drop)]
pub struct Left {
    pub node: NodeId,
    /// The element and what is below it, in document order, without the nodes that are left out.
    pub kept: NodeList,
}

/// What a submission selects.
#[derive(Drop)]
pub enum Chosen {
    Left(Left),
    /// Nothing is selected or left, or an attribute is selected.
    NoData,
    /// The first node left that is not valid.
    Invalid(NodeId),
}

/// What a submission selects, by the properties that are told of the nodes. It costs the nodes of the tree, and for each the nodes above it.
pub fn selected<M: NodeMarks>(
    over: &Over<'_>,
    marks: &M,
    submission: &Submission,
) -> Result<Chosen, EvalFault>
    ensures value { GivesBounded EvalFault.Memory EvalFault.Long seen_chosen result (model.submitted (Some string_limit) (scope_over over.now submission.now.model) (relevant_by (M.marks_of marks.now)) (valid_by (M.marks_of marks.now)) over.now.forest.now.forest.nodes submission.now) }
    ensures element { IfOk result (IsOfElement over.now.forest.now.forest.nodes) }
{
    match selected_node(over, submission)? {
        Some(node) => Ok(left_of(over, marks, submission, node)?),
        None => Ok(Chosen::NoData),
    }
}

/// What is left of a node, where it is an element.
fn left_of<M: NodeMarks>(
    over: &Over<'_>,
    marks: &M,
    submission: &Submission,
    node: NodeId,
) -> Result<Chosen, AllocError>
    ensures value { IfOk result (λ found. seen_chosen found ≡ model.submitted_from submission.now (relevant_by (M.marks_of marks.now)) (valid_by (M.marks_of marks.now)) (visits over.now.forest.now.forest.nodes) (Some node.number)) }
    ensures element { IfOk result (IsOfElement over.now.forest.now.forest.nodes) }
{
    if !is_element(over.forest, node) {
        return Ok(Chosen::NoData);
    }
    left_of_element(over, marks, submission, node)
}

fn left_of_element<M: NodeMarks>(
    over: &Over<'_>,
    marks: &M,
    submission: &Submission,
    element: NodeId,
) -> Result<Chosen, AllocError>
    requires { kind_at element.number over.now.forest.now.forest.nodes ≡ Some kind.Element }
    ensures value { IfOk result (λ found. seen_chosen found ≡ model.sent_from submission.now.is_validated (model.left_by submission.now.is_relevant (relevant_by (M.marks_of marks.now))) (valid_by (M.marks_of marks.now)) (visits over.now.forest.now.forest.nodes) (Some element.number)) }
    ensures element { IfOk result (IsOfElement over.now.forest.now.forest.nodes) }
{
    let is_whole = is_left(marks, submission, element);
    if !is_whole {
        return Ok(Chosen::NoData);
    }
    let kept = kept_below(over, marks, submission, element)?;
    let is_validated = submission.is_validated;
    if !is_validated {
        return Ok(Chosen::Left(Left {
            node: element,
            kept,
        }));
    }
    match first_invalid(marks, kept.as_slice()) {
        Some(node) => Ok(Chosen::Invalid(node)),
        None => Ok(Chosen::Left(Left {
            node: element,
            kept,
        })),
    }
}

/// Whether a node is left: it is relevant, where that is asked.
fn is_left<M: NodeMarks>(marks: &M, submission: &Submission, node: NodeId) -> bool
    ensures { result ≡ model.left_by submission.now.is_relevant (relevant_by (M.marks_of marks.now)) node.number }
{
    if !submission.is_relevant {
        return true;
    }
    marks.marks(node).relevant
}

/// The element and what is below it, in document order, without the nodes that are left out.
fn kept_below<M: NodeMarks>(
    over: &Over<'_>,
    marks: &M,
    submission: &Submission,
    element: NodeId,
) -> Result<NodeList, AllocError>
    requires { IsLive element.number over.now.forest.now.forest }
    ensures { IfOk result (λ kept. kept ≡ model.kept_below (visits over.now.forest.now.forest.nodes) (model.left_by submission.now.is_relevant (relevant_by (M.marks_of marks.now))) element.number) }
{
    let below = nodes_below(over.alloc, over.forest, element)?;
    let mut kept = NodeList::new(over.alloc);
    push_left(marks, submission, below.as_slice(), &mut kept)?;
    Ok(kept)
}

/// Puts those of some nodes that are left behind others.
fn push_left<M: NodeMarks>(
    marks: &M,
    submission: &Submission,
    nodes: &[NodeId],
    kept: &mut NodeList,
) -> Result<(), AllocError>
    ensures { OnOk result (kept.new ≡ kept.old ++ filter (model.left_by submission.now.is_relevant (relevant_by (M.marks_of marks.now))) (map (λ n. n.number) nodes.now)) }
{
    for node in nodes {
        push_if_left(marks, submission, *node, kept)?;
    }
    Ok(())
}

fn push_if_left<M: NodeMarks>(
    marks: &M,
    submission: &Submission,
    node: NodeId,
    kept: &mut NodeList,
) -> Result<(), AllocError>
    ensures { OnOk result (kept.new ≡ kept.old ++ (if model.left_by submission.now.is_relevant (relevant_by (M.marks_of marks.now)) node.number then node.number ∷ [] else [])) }
{
    if is_left(marks, submission, node) {
        return kept.push(node);
    }
    Ok(())
}

/// The first of some nodes that is not valid.
fn first_invalid<M: NodeMarks>(marks: &M, nodes: &[NodeId]) -> Option<NodeId>
    ensures { option_map (λ n. n.number) result ≡ find (λ m. not (valid_by (M.marks_of marks.now) m)) (map (λ n. n.number) nodes.now) }
{
    for node in nodes {
        if !marks.marks(*node).valid {
            return Some(*node);
        }
    }
    None
}
