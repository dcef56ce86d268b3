//! What a submission asks the store for, before it is called (XForms 1.1, section 11.2).

ghost use Rattle.std.specs.Prelude.{◌≡◌, IfOk, Some, option_map};
ghost use Rattle.xf_base.specs.Limits.{string_limit};
ghost use Rattle.xf_def_values.specs.Bounded.{GivesBounded};
ghost use Rattle.xf_tree_literals.specs.Print.{MayPrint};
ghost use Rattle.xf_def_model.specs.Submitted.{left, submitted};
ghost use Rattle.xf_submit.specs.Requesting.{request_of, seen_request};
ghost use Rattle.xf_submit.specs.Selecting.{relevant_by, scope_over, valid_by};

use crate::asking::asked;
use crate::error::ErrorType;
use crate::naming::is_store_name;
use crate::selecting::{Chosen, Left, selected};
use std::alloc::AllocError;
use xf_def_forest::NodeId;
use xf_def_syntax::Submission;
use xf_def_ui::NodeMarks;
use xf_eval::EvalFault;
use xf_eval_context::Over;
use xf_store::Asked;

/// What a submission asks for.
#[derive(Drop)]
pub enum Request {
    /// Nothing: it fails before the store is called.
    Fails(ErrorType),
    /// This, for the tree of this node.
    Asks(NodeId, Asked),
}

/// What is selected, and what is asked of the store for it. The name is tried before anything is printed.
pub fn requested<M: NodeMarks>(
    over: &Over<'_>,
    marks: &M,
    submission: &Submission,
) -> Result<Request, EvalFault>
    ensures { GivesBounded EvalFault.Memory EvalFault.Long seen_request result (option_map (request_of over.now.prefixes.now over.now.forest.now.forest.nodes submission.now) (submitted (Some string_limit) (scope_over over.now submission.now.model) (relevant_by (M.marks_of marks.now)) (valid_by (M.marks_of marks.now)) over.now.forest.now.forest.nodes submission.now)) }
{
    match selected(over, marks, submission)? {
        Chosen::NoData => Ok(Request::Fails(ErrorType::NoData)),
        Chosen::Invalid(_) => Ok(Request::Fails(ErrorType::Validation)),
        Chosen::Left(left) => Ok(requested_for(over, submission, &left)?),
    }
}

fn requested_for(
    over: &Over<'_>,
    submission: &Submission,
    tree: &Left,
) -> Result<Request, AllocError>
    requires { MayPrint tree.now.node.number over.now.forest.now.forest }
    ensures { IfOk result (λ r. seen_request r ≡ request_of over.now.prefixes.now over.now.forest.now.forest.nodes submission.now (left tree.now.node.number tree.now.kept)) }
{
    if !is_store_name(submission.resource.as_str()) {
        return Ok(Request::Fails(ErrorType::Resource));
    }
    let asked = asked(over, submission, tree)?;
    Ok(Request::Asks(tree.node, asked))
}
