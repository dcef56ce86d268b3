//! The value of an entry and its text, over the forest as it stands (XForms 1.1, section 7.2).

ghost use Rattle.std.specs.Prelude.{◌≡◌, Some, true, option_map, IfOk};
ghost use Rattle.xf_base.specs.Limits.{string_limit};
ghost use Rattle.xf_def_forest.specs.Forest.{has_number};
ghost use Rattle.xf_def_forest.specs.Visit.{visits};
ghost use Rattle.xf_def_values.specs.Bounded.{GivesBounded};
ghost use Rattle.xf_def_xpath.specs.Conversions.{nodes_of, truth_of};
ghost use Rattle.xf_def_model.specs.Entries.{text_of, value_of};
ghost use Rattle.xf_eval.specs.Live.{AllLive, AroundStands};
ghost use Rattle.xf_binds.specs.Held.{entry_of};
ghost use Rattle.xf_recalc.specs.Settles.{scope_in};

use std::alloc::Global;
use xf_binds::Entry;
use xf_binds_rebuild::expression_of;
use xf_def_forest::NodeList;
use xf_def_syntax::Tables;
use xf_eval::{Around, Context, EvalFault, Value, text_of, truth_of, value_at};
use xf_name::Word;
use xf_tree::Forest;

/// What an entry gives: the text of its value, and its truth.
#[derive(Debug, Drop)]
pub(crate) struct Evaluated {
    pub text: Word,
    pub truth: bool,
}

/// The text of an entry's value, and its truth.
pub(crate) fn evaluated_entry<A: Around>(
    alloc: Global,
    tables: &Tables,
    forest: &Forest,
    model: u32,
    entry: Entry,
    around: &A,
) -> Result<Evaluated, EvalFault>
    requires stands { AroundStands (A.given around.now) forest.now.forest.nodes }
    requires live { has_number entry.node.number forest.now.forest.nodes ≡ true }
    ensures text { GivesBounded EvalFault.Memory EvalFault.Long (λ given. given.text) result (text_of (Some string_limit) (scope_in (A.given around.now) tables.now model) (visits forest.now.forest.nodes) (entry_of entry)) }
    ensures truth { IfOk result (λ given. option_map truth_of (value_of (Some string_limit) (scope_in (A.given around.now) tables.now model) (visits forest.now.forest.nodes) (entry_of entry)) ≡ Some given.truth) }
{
    let value = entry_value(alloc, tables, forest, model, entry, around)?;
    let truth = truth_of(&value);
    let text = text_of(alloc, forest, &value, around.decimals())?;
    Ok(Evaluated { text, truth })
}

/// The value of an entry; one without an expression has no nodes.
pub(crate) fn entry_value<A: Around>(
    alloc: Global,
    tables: &Tables,
    forest: &Forest,
    model: u32,
    entry: Entry,
    around: &A,
) -> Result<Value, EvalFault>
    requires stands { AroundStands (A.given around.now) forest.now.forest.nodes }
    requires live { has_number entry.node.number forest.now.forest.nodes ≡ true }
    ensures value { GivesBounded EvalFault.Memory EvalFault.Long (λ value. value) result (value_of (Some string_limit) (scope_in (A.given around.now) tables.now model) (visits forest.now.forest.nodes) (entry_of entry)) }
    ensures live { IfOk result (λ value. AllLive (nodes_of value) forest.now.forest.nodes) }
{
    match expression_of(tables.binds.as_slice(), entry) {
        Some(expr) => {
            let context = Context {
                model,
                node: entry.node,
                position: entry.position,
                size: entry.size,
                current: entry.node,
            };
            value_at(alloc, forest, around, expr, &context)
        }
        None => Ok(Value::Nodes(NodeList::new(alloc))),
    }
}
