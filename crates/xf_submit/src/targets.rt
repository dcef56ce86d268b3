//! Where the response comes (XForms 1.1, section 11.2).

ghost use Rattle.std.specs.Prelude.{◌≡◌, option_map};
ghost use Rattle.xf_def_values.specs.Bounded.{GivesBounded};
ghost use Rattle.xf_submit.specs.Selecting.{scope_over};
ghost use Rattle.xf_submit.specs.Targets as targets;

use crate::nodes::{first_child, has_elements, is_element};
use crate::sources::first_by;
use xf_def_forest::{Kind, NodeId};
use xf_def_syntax::Submission;
use xf_def_ui::NodeMarks;
use xf_eval::EvalFault;
use xf_eval_context::{Over, document, is_live};
use xf_tree::Forest;

/// The target of a submission whose selection is this node: what `targetref` selects, else the document element of the instance that is named,
/// else that of the selection's instance.
pub fn target(
    over: &Over<'_>,
    submission: &Submission,
    node: NodeId,
) -> Result<Option<NodeId>, EvalFault>
    ensures { GivesBounded EvalFault.Memory EvalFault.Long (option_map (λ n. n.number)) result (targets.target_by (scope_over over.now submission.now.model) over.now.forest.now.forest.nodes node.number submission.now.target submission.now.instance) }
{
    match &submission.target {
        Some(expr) => first_by(over, submission.model, expr),
        None => match submission.instance {
            Some(instance) => Ok(document(over.forest, instance)),
            None => Ok(document_around(over.forest, node)),
        },
    }
}

/// The document element of the instance in which a node stands.
fn document_around(forest: &Forest, node: NodeId) -> Option<NodeId>
    ensures { option_map (λ n. n.number) result ≡ targets.document_of forest.now.forest.nodes node.number }
{
    forest.are_trees();
    if !is_live(forest, node) {
        return None;
    }
    let top = forest.top(node);
    match forest.kind(top) {
        Kind::Root => first_child(forest, top),
        Kind::Element => None,
        Kind::Attribute => None,
        Kind::Text => None,
    }
}

/// Whether a tree may come in the place of a node: it is an element, and not readonly.
pub fn takes_tree<M: NodeMarks>(forest: &Forest, marks: &M, node: NodeId) -> bool
    ensures { result ≡ targets.takes_tree (M.marks_of marks.now) forest.now.forest.nodes node.number }
{
    forest.are_trees();
    if !is_element(forest, node) {
        return false;
    }
    !marks.marks(node).readonly
}

/// Whether a text may come in a node: it has no element children, and is not readonly.
pub fn takes_text<M: NodeMarks>(forest: &Forest, marks: &M, node: NodeId) -> bool
    ensures { result ≡ targets.takes_text (M.marks_of marks.now) forest.now.forest.nodes node.number }
{
    if has_elements(forest, node) {
        return false;
    }
    !marks.marks(node).readonly
}
