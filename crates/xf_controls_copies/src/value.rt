//! The values of copies (XForms 1.1, section 8.1.1): that of the bound node, or of an output's expression where there is a context node.

ghost use Rattle.std.specs.Prelude.{◌≡◌, option_map};
ghost use Rattle.xf_def_values.specs.Bounded.{GivesBounded};
ghost use Rattle.xf_def_xpath.specs.Meaning.{meaning};
ghost use Rattle.xf_def_ui.specs.Copies as copies;
ghost use Rattle.xf_def_ui.specs.Elements.{element_at};
ghost use Rattle.xf_def_ui.specs.Interface.{interface_of};
ghost use Rattle.xf_eval_context.specs.Inside.{seen_context};
ghost use Rattle.xf_eval_context.specs.Over.{around_over, string_in};
ghost use Rattle.xf_controls.specs.Handed.{printed_in};
ghost use Rattle.xf_controls.specs.Seen.{number};
ghost use Rattle.xf_controls_copies.specs.Made as made;

use crate::copy::own_binding;
use xf_base::limits::STRING_LIMIT;
use xf_def_forest::NodeId;
use xf_def_syntax::{Control, Expr, Form, Kind};
use xf_eval::EvalFault;
use xf_eval_context::{Over, Situation, is_live, text};
use xf_form_elements::{Bound, element_in};
use xf_name::Word;

/// The value of what binds a node: `None` is no value.
pub(crate) fn value_of(
    over: &Over<'_>,
    situation: &Situation,
    element: u32,
    node: Option<NodeId>,
) -> Result<Option<Word>, EvalFault>
    ensures { GivesBounded EvalFault.Memory EvalFault.Long (λ value. value) result (made.value_in (interface_of over.now.form.now) (around_over over.now) element (seen_context situation.now) (option_map number node)) }
{
    match node {
        Some(node) => Ok(Some(string_at(over, node)?)),
        None => match own_binding(over.form, element) {
            Bound::Unbound => value_printed(over, situation, printed_in(over.form, element)),
            _ => Ok(None),
        },
    }
}

/// The string value of a node.
fn string_at(over: &Over<'_>, node: NodeId) -> Result<Word, EvalFault>
    ensures { GivesBounded EvalFault.Memory EvalFault.Long (λ w. w) result (string_in over.now.forest.now.forest.nodes node.number) }
{
    if !is_live(over.forest, node) {
        // What a binding selects stands in the forest.
        return Err(EvalFault::Memory);
    }
    match over.forest.string_value(node, STRING_LIMIT)? {
        Some(text) => Ok(text),
        None => Err(EvalFault::Long),
    }
}

/// The text of an expression, where one is written and there is a context node.
fn value_printed(
    over: &Over<'_>,
    situation: &Situation,
    expr: Option<&Expr>,
) -> Result<Option<Word>, EvalFault>
    ensures { GivesBounded EvalFault.Memory EvalFault.Long (λ value. value) result (made.printed_if (around_over over.now) (seen_context situation.now) (option_map (λ e. meaning e.now) expr.entry)) }
{
    let Some(expr) = expr else {
        return Ok(None);
    };
    match situation.focus {
        Some(focus) => Ok(Some(text(over, situation.model, &focus, expr)?)),
        None => Ok(None),
    }
}

/// The expression `value` of an output.
fn printed_in(form: &Form, element: u32) -> Option<&Expr>
    ensures { option_map (λ e. meaning e.now) result ≡ printed_in (element_at (interface_of form.now) element).sort }
{
    match element_in(form, element) {
        Some(here) => match &here.kind {
            Kind::Control(_, Control::Output(Some(expr))) => Some(expr),
            _ => None,
        },
        None => None,
    }
}
