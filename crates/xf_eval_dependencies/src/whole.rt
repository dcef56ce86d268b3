//! What a whole expression reads and looks at over the shape of a forest (XForms 1.1, appendix C): nodes in document order, each once.

ghost use Rattle.std.specs.Prelude.{◌≡◌, true, IfOk};
ghost use Rattle.xf_funcs.specs.Called.{called};
ghost use Rattle.xf_def_xpath.specs.Asked.{converted};
ghost use Rattle.xf_def_xpath.specs.Meaning.{focus_of};
ghost use Rattle.xf_def_xpath.specs.Reads.{looks_of, reads_of, trace};
ghost use Rattle.xf_eval.specs.Live.{AllLive, IsReady};
ghost use Rattle.xf_eval_shape.specs.Fixed.{is_fixed};
ghost use Rattle.xf_eval_shape.specs.Over.{shape_at};
ghost use Rattle.xf_eval_dependencies.specs.Asked.Tells.{Stands, Tells};

use crate::asked::{Asked, converted};
use crate::expression::asked_of;
use std::alloc::{AllocError, Global};
use xf_def_forest::NodeList;
use xf_def_syntax::Expr;
use xf_def_xpath::Context;
use xf_eval::Around;
use xf_eval_shape::is_sound;
use xf_tree::Forest;

/// The nodes whose string values the expression reads: its value counts as turned into a text.
pub fn reads<A: Around>(
    alloc: Global,
    forest: &Forest,
    expr: &Expr,
    context: &Context,
    around: &A,
) -> Result<NodeList, AllocError>
    requires fixed { is_fixed expr.now ≡ true }
    requires ready { IsReady (A.given around.now) forest.now.forest.nodes context.now }
    ensures value { IfOk result (λ nodes. nodes ≡ reads_of called (A.given around.now) forest.now.forest.nodes expr.now context.now) }
    ensures live { IfOk result (λ nodes. AllLive nodes forest.now.forest.nodes) }
{
    is_sound(forest);
    let told = text_asked(alloc, forest, around, expr, context)?;
    forest.in_order(&told.reads)
}

/// The nodes whose list of attributes and children the expression looks at: its value counts as turned into a text.
pub fn looks<A: Around>(
    alloc: Global,
    forest: &Forest,
    expr: &Expr,
    context: &Context,
    around: &A,
) -> Result<NodeList, AllocError>
    requires fixed { is_fixed expr.now ≡ true }
    requires ready { IsReady (A.given around.now) forest.now.forest.nodes context.now }
    ensures value { IfOk result (λ nodes. nodes ≡ looks_of called (A.given around.now) forest.now.forest.nodes expr.now context.now) }
    ensures live { IfOk result (λ nodes. AllLive nodes forest.now.forest.nodes) }
{
    is_sound(forest);
    let told = text_asked(alloc, forest, around, expr, context)?;
    forest.in_order(&told.looks)
}

/// What the expression reads, and the nodes whose list it looks at, from one walk: as `reads` and `looks` give them.
pub fn asks<A: Around>(
    alloc: Global,
    forest: &Forest,
    expr: &Expr,
    context: &Context,
    around: &A,
) -> Result<(NodeList, NodeList), AllocError>
    requires fixed { is_fixed expr.now ≡ true }
    requires ready { IsReady (A.given around.now) forest.now.forest.nodes context.now }
    ensures reads { IfOk result (λ lists. lists.0 ≡ reads_of called (A.given around.now) forest.now.forest.nodes expr.now context.now) }
    ensures looks { IfOk result (λ lists. lists.1 ≡ looks_of called (A.given around.now) forest.now.forest.nodes expr.now context.now) }
    ensures reads_live { IfOk result (λ lists. AllLive lists.0 forest.now.forest.nodes) }
    ensures looks_live { IfOk result (λ lists. AllLive lists.1 forest.now.forest.nodes) }
{
    is_sound(forest);
    let told = text_asked(alloc, forest, around, expr, context)?;
    let reads = forest.in_order(&told.reads)?;
    let looks = forest.in_order(&told.looks)?;
    Ok((reads, looks))
}

/// What the expression asks where a text is made of its value.
fn text_asked<A: Around>(
    alloc: Global,
    forest: &Forest,
    around: &A,
    expr: &Expr,
    context: &Context,
) -> Result<Asked, AllocError>
    requires fixed { is_fixed expr.now ≡ true }
    requires ready { IsReady (A.given around.now) forest.now.forest.nodes context.now }
    ensures tells { IfOk result (λ told. Tells forest.now.forest.nodes told (converted (shape_at (A.given around.now) forest.now.forest.nodes context.now) ((trace expr.now).asked (shape_at (A.given around.now) forest.now.forest.nodes context.now) (focus_of context.now)))) }
    ensures stands { IfOk result (λ told. Stands forest.now.forest.nodes told) }
{
    let asked = asked_of(alloc, forest, around, expr, context)?;
    converted(alloc, forest, asked)
}
