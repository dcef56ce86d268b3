//! What is asked of the store, and the bytes that are sent (XForms 1.1, sections 11.2 and 11.9).

ghost use Rattle.std.specs.Prelude.{◌≡◌, IfOk};
ghost use Rattle.xf_tree_literals.specs.Print.{MayPrint};
ghost use Rattle.xf_submit.specs.Requesting.{asked_by, sent_bytes};

use crate::selecting::Left;
use std::alloc::AllocError;
use xf_def_syntax::{Method, Submission};
use xf_eval_context::Over;
use xf_io::Bytes;
use xf_json::print;
use xf_store::Asked;

/// What is asked of the store for the nodes that are left, by the method.
pub(crate) fn asked(
    over: &Over<'_>,
    submission: &Submission,
    tree: &Left,
) -> Result<Asked, AllocError>
    requires { MayPrint tree.now.node.number over.now.forest.now.forest }
    ensures { IfOk result (λ asked. asked ≡ asked_by over.now.prefixes.now over.now.forest.now.forest.nodes submission.now tree.now.node.number tree.now.kept submission.now.method) }
{
    match submission.method {
        Method::Put => Ok(Asked::Put(sent_bytes(over, submission, tree)?)),
        Method::Post => Ok(Asked::Put(sent_bytes(over, submission, tree)?)),
        Method::Get => Ok(Asked::Get),
    }
}

/// The bytes that are sent: none with the serialization `none`.
fn sent_bytes(over: &Over<'_>, submission: &Submission, tree: &Left) -> Result<Bytes, AllocError>
    requires { MayPrint tree.now.node.number over.now.forest.now.forest }
    ensures { IfOk result (λ bytes. bytes ≡ sent_bytes over.now.prefixes.now over.now.forest.now.forest.nodes submission.now tree.now.node.number tree.now.kept) }
{
    if !submission.is_serialized {
        return Ok(Bytes::new(over.alloc));
    }
    let lit = over.forest.to_lit(tree.node, over.prefixes, &tree.kept)?;
    print(over.alloc, &lit)
}
