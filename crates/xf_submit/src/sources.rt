//! The node that a submission selects, and that which its `targetref` does (XForms 1.1, section 11.1).

ghost use Rattle.std.specs.Prelude.{◌≡◌, IfOk, None, Some, length, nat_lt, option_map};
ghost use Rattle.xf_base.specs.Limits.{string_limit};
ghost use Rattle.xf_def_values.specs.Bounded.{GivesBounded};
ghost use Rattle.xf_def_forest.specs.Visit.{visits};
ghost use Rattle.xf_def_xpath.specs.Given.{first_document};
ghost use Rattle.xf_def_xpath.specs.Reads.{trace};
ghost use Rattle.xf_def_model.specs.Submitted.{by_expression, first_in, selected_by};
ghost use Rattle.xf_def_model.specs.Rules.{for_binds};
ghost use Rattle.xf_def_model.specs.Nested as chain;
ghost use Rattle.xf_eval_context.specs.Over.{around_over};
ghost use Rattle.xf_submit.specs.Selecting.{scope_over};

use std::alloc::AllocError;
use xf_def_forest::NodeId;
use xf_def_syntax::{Expr, Selection, Submission};
use xf_def_ui::Property;
use xf_eval::EvalFault;
use xf_eval_context::nested::nested;
use xf_eval_context::{Index, Over, Surroundings, alone, document_of, documents, first_selected};

/// The node that a submission selects.
pub(crate) fn selected_node(
    over: &Over<'_>,
    submission: &Submission,
) -> Result<Option<NodeId>, EvalFault>
    ensures { GivesBounded EvalFault.Memory EvalFault.Long (option_map (λ n. n.number)) result (selected_by (Some string_limit) (scope_over over.now submission.now.model) (visits over.now.forest.now.forest.nodes) submission.now.selection) }
{
    match &submission.selection {
        Selection::Whole => first_of_whole(over, submission.model),
        Selection::Ref(expr) => first_by(over, submission.model, expr),
        Selection::Bind(bind) => first_of_bind(over, submission.model, *bind),
    }
}

/// The document element of a model's first instance, as a selection.
fn first_of_whole(over: &Over<'_>, model: u32) -> Result<Option<NodeId>, EvalFault>
    ensures { GivesBounded EvalFault.Memory EvalFault.Long (option_map (λ n. n.number)) result (Some (first_document model (around_over over.now).given.documents)) }
{
    Ok(first_document(over, model)?)
}

/// The document element of a model's first instance.
fn first_document(over: &Over<'_>, model: u32) -> Result<Option<NodeId>, AllocError>
    ensures { IfOk result (λ n. option_map (λ n. n.number) n ≡ first_document model (around_over over.now).given.documents) }
{
    let instances = over.form.tables.instances.as_slice();
    let documents = documents(over.alloc, instances, over.forest)?;
    Ok(document_of(instances, documents.as_slice(), model, ""))
}

/// The first node that an expression selects whose context is the document element of the model's first instance, and then what stands for it.
pub(crate) fn first_by(
    over: &Over<'_>,
    model: u32,
    expr: &Expr,
) -> Result<Option<NodeId>, EvalFault>
    ensures { GivesBounded EvalFault.Memory EvalFault.Long (option_map (λ n. n.number)) result (by_expression (Some string_limit) (scope_over over.now model) (visits over.now.forest.now.forest.nodes) (trace expr.now)) }
{
    match first_document(over, model)? {
        Some(document) => first_selected(over, model, expr, &alone(document)),
        None => Ok(None),
    }
}

/// The first node of a bind.
fn first_of_bind(over: &Over<'_>, model: u32, bind: u32) -> Result<Option<NodeId>, EvalFault>
    ensures { GivesBounded EvalFault.Memory EvalFault.Long (option_map (λ n. n.number)) result (option_map first_in (chain.nested (Some string_limit) (for_binds (scope_over over.now model)) (visits over.now.forest.now.forest.nodes) bind)) }
{
    if is_bind(over, bind) {
        return first_nested(over, bind);
    }
    // No bind stands around what is not there.
    first_of_whole(over, model)
}

/// Whether there is a bind of this number.
fn is_bind(over: &Over<'_>, bind: u32) -> bool
    ensures { result ≡ nat_lt bind (length over.now.form.now.tables.binds) }
{
    (bind as usize) < over.form.tables.binds.len()
}

/// The first node of a bind that is there: binds see no indexes and no event.
fn first_nested(over: &Over<'_>, bind: u32) -> Result<Option<NodeId>, EvalFault>
    ensures { GivesBounded EvalFault.Memory EvalFault.Long (option_map (λ n. n.number)) result (option_map first_in (chain.nested (Some string_limit) (for_binds (scope_over over.now 0)) (visits over.now.forest.now.forest.nodes) bind)) }
{
    let instances = over.form.tables.instances.as_slice();
    let documents = documents(over.alloc, instances, over.forest)?;
    let around = Surroundings {
        form: over.form,
        prefixes: over.prefixes,
        documents: documents.as_slice(),
        indexes: without_rows(over),
        told: outside(over),
    };
    let tables = &over.form.tables;
    let nodes = nested(over.alloc, over.forest, tables, bind, &around)?;
    Ok(nodes.get(0))
}

/// Outside an event nothing is told.
fn outside<'a>(over: &Over<'a>) -> Option<&'a [Property]>
    ensures { result ≡ None }
{
    let _ = over;
    None
}

/// Nor are there indexes.
fn without_rows<'a>(over: &Over<'a>) -> Option<&'a [Index]>
    ensures { result ≡ None }
{
    let _ = over;
    None
}
