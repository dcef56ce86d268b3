//! The values of copies (XForms 1.1, section 8.1.1): that of the bound node, or of an output's expression where there is a context node.

ghost use Rattle.std.specs.Prelude.{◌≡◌, ◌≤◌, None, Some, length, option_map};
ghost use Rattle.std.specs.Bool.{OnTrue};
ghost use Rattle.xf_base.specs.Limits.{string_limit};
ghost use Rattle.xf_def_values.specs.Bounded.{GivesBounded};
ghost use Rattle.xf_def_forest.specs.Forest.{IsLive};
ghost use Rattle.xf_def_forest.specs.Visit.{visits};
ghost use Rattle.xf_def_xpath.specs.Meaning.{meaning};
ghost use Rattle.xf_eval.specs.Live.{AroundStands};
ghost use Rattle.xf_def_ui.specs.Around.{alone};
ghost use Rattle.xf_def_ui.specs.Copies as copies;
ghost use Rattle.xf_def_ui.specs.Interface.{sort_of};
ghost use Rattle.xf_form_elements.specs.Bound.{seen_bound};
ghost use Rattle.xf_controls.specs.Seen.{IsThere, number};
ghost use Rattle.xf_controls.specs.Renewed.{value_over};
ghost use Rattle.xf_controls.specs.Surrounded.{around_in, printed_from, string_in};

use crate::binding::context_at;
use crate::element::printed_in;
use std::alloc::Global;
use xf_base::limits::STRING_LIMIT;
use xf_def_forest::NodeId;
use xf_def_syntax::{Expr, Kind, Tables};
use xf_eval::{Around, EvalFault, text_of, value_at};
use xf_form_elements::Bound;
use xf_name::Word;
use xf_tree::Forest;

/// The value of what binds a node: `None` is no value.
pub(crate) fn value_of<A: Around>(
    alloc: Global,
    forest: &Forest,
    tables: &Tables,
    around: &A,
    model: u32,
    kind: &Kind,
    binding: Bound<'_>,
    focus: Option<NodeId>,
    node: Option<NodeId>,
) -> Result<Option<Word>, EvalFault>
    requires around { AroundStands (A.given around.now) forest.now.forest.nodes }
    requires focus { IsThere focus forest.now.forest.nodes }
    requires node { IsThere node forest.now.forest.nodes }
    ensures { GivesBounded EvalFault.Memory EvalFault.Long (λ value. value) result (copies.value_by (around_in (A.given around.now) tables.now forest.now.forest.nodes) (record { model = model; focus = option_map (λ n. alone n.number) focus }) (seen_bound binding.entry) (sort_of kind.now) (option_map number node)) }
{
    match node {
        Some(node) => Ok(Some(string_of(forest, node)?)),
        None => match binding {
            Bound::Unbound => value_printed(alloc, forest, around, model, printed_in(kind), focus),
            _ => Ok(None),
        },
    }
}

/// The value of a copy that binds this node: without a node it has none.
pub(crate) fn value_over(forest: &Forest, node: Option<NodeId>) -> Result<Option<Word>, EvalFault>
    requires { IsThere node forest.now.forest.nodes }
    ensures { GivesBounded EvalFault.Memory EvalFault.Long (λ value. value) result (value_over forest.now.forest.nodes (option_map number node)) }
{
    match node {
        Some(node) => Ok(Some(string_of(forest, node)?)),
        None => Ok(None),
    }
}

/// Whether this is the value of a copy that binds this node, told without memory. That it may not be promises nothing.
pub(crate) fn has_value(forest: &Forest, node: Option<NodeId>, value: &Option<Word>) -> bool
    requires { IsThere node forest.now.forest.nodes }
    ensures { OnTrue result (value_over forest.now.forest.nodes (option_map number node) ≡ Some value.now) }
{
    match node {
        Some(node) => match value {
            Some(text) => has_text(forest, node, text),
            None => false,
        },
        None => value.is_none(),
    }
}

/// Whether the string value of a node is this one, and stands in one piece.
fn has_text(forest: &Forest, node: NodeId, text: &Word) -> bool
    requires { IsLive node.number forest.now.forest }
    ensures { OnTrue result (string_in forest.now.forest.nodes node.number ≡ Some text.now) }
{
    match forest.whole_value(node) {
        Some(whole) => is_short(whole) && text.is(whole),
        None => false,
    }
}

/// Whether a string is not too long.
fn is_short(text: &str) -> bool
    ensures { OnTrue result (length text.now ≤ string_limit) }
{
    text.len() <= STRING_LIMIT as usize
}

/// The string value of a node.
fn string_of(forest: &Forest, node: NodeId) -> Result<Word, EvalFault>
    requires { IsLive node.number forest.now.forest }
    ensures { GivesBounded EvalFault.Memory EvalFault.Long (λ text. text) result (string_in forest.now.forest.nodes node.number) }
{
    match forest.string_value(node, STRING_LIMIT)? {
        Some(text) => Ok(text),
        None => Err(EvalFault::Long),
    }
}

/// The text of an expression, where one is written and there is a context node.
fn value_printed<A: Around>(
    alloc: Global,
    forest: &Forest,
    around: &A,
    model: u32,
    expr: Option<&Expr>,
    focus: Option<NodeId>,
) -> Result<Option<Word>, EvalFault>
    requires around { AroundStands (A.given around.now) forest.now.forest.nodes }
    requires focus { IsThere focus forest.now.forest.nodes }
    ensures { GivesBounded EvalFault.Memory EvalFault.Long (λ value. value) result (printed_from (A.given around.now) forest.now.forest.nodes model (option_map (λ e. meaning e.now) expr.entry) (option_map number focus)) }
{
    let Some(expr) = expr else {
        return Ok(None);
    };
    let Some(focus) = focus else {
        return Ok(None);
    };
    let value = value_at(alloc, forest, around, expr, &context_at(model, focus))?;
    Ok(Some(text_of(alloc, forest, &value, around.decimals())?))
}
