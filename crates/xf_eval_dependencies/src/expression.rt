//! What an expression asks: one level of the syntax tree over what its parts ask.

ghost use Rattle.std.specs.Prelude.{◌≡◌, true, IfOk, map};
ghost use Rattle.std.specs.List.{list_all};
ghost use Rattle.xf_def_xpath.specs.Asked as lang;
ghost use Rattle.xf_def_xpath.specs.AskedCalls.{link_asked, links_asked};
ghost use Rattle.xf_def_xpath.specs.Meaning.{focus_of};
ghost use Rattle.xf_def_xpath.specs.Reads.{trace, trace_of_link};
ghost use Rattle.xf_def_xpath.specs.Setting.{Setting};
ghost use Rattle.xf_eval.specs.Live.{IsReady};
ghost use Rattle.xf_eval_shape.specs.Fixed.{is_fixed, is_fixed_link};
ghost use Rattle.xf_eval_shape.specs.Over.{shape_at};
ghost use Rattle.xf_eval_shape.specs.Spots.{shaped};
ghost use Rattle.xf_eval_dependencies.specs.Asked.Tells.{Stands, Tells};

use crate::arguments::{call_asked, one_converted};
use crate::asked::{
    Asked, as_truth, both, compared, computed, either, filtered, nothing, tightly, walks_asked,
};
use crate::ways::way_of;
use std::alloc::{AllocError, Global};
use xf_def_syntax::{Expr, Link, Operator};
use xf_def_xpath::Context;
use xf_eval::{Around, kind_of};
use xf_eval_shape::begun;
use xf_tree::Forest;

/// What an expression asks over the shape.
#[cycle(asks)]
pub(crate) fn asked_of<A: Around>(
    alloc: Global,
    forest: &Forest,
    around: &A,
    expr: &Expr,
    context: &Context,
) -> Result<Asked, AllocError>
    requires fixed { is_fixed expr.now ≡ true }
    requires ready { IsReady (A.given around.now) forest.now.forest.nodes context.now }
    ensures tells { IfOk result (λ told. Tells forest.now.forest.nodes told ((trace expr.now).asked (shape_at (A.given around.now) forest.now.forest.nodes context.now) (focus_of context.now))) }
    ensures stands { IfOk result (λ told. Stands forest.now.forest.nodes told) }
{
    match expr {
        Expr::Number(_, _) | Expr::Literal(_, _) => Ok(nothing(alloc)),
        Expr::Call(_, code, arguments) => {
            let kind = kind_of(*code);
            let way = way_of(kind);
            call_asked(alloc, forest, around, way, arguments.as_slice(), context)
        }
        Expr::Negated(_, _, part) => one_converted(alloc, forest, around, part.get(), context),
        Expr::Chain(first, links) => {
            let asked = asked_of(alloc, forest, around, first.get(), context)?;
            links_asked(alloc, forest, around, links.as_slice(), asked, context)
        }
        Expr::Filter(first, predicates) => {
            let asked = asked_of(alloc, forest, around, first.get(), context)?;
            filtered(alloc, forest, around, predicates.as_slice(), asked, context)
        }
        Expr::Path(_, start, steps) => {
            let from = begun(alloc, forest, *start, context)?;
            let asked = tightly(alloc, from);
            walks_asked(alloc, forest, around, steps.as_slice(), asked, context)
        }
        Expr::From(first, steps) => {
            let asked = asked_of(alloc, forest, around, first.get(), context)?;
            walks_asked(alloc, forest, around, steps.as_slice(), asked, context)
        }
    }
}

/// What a chain of operators asks, from left to right.
#[cycle(asks)]
fn links_asked<A: Around>(
    alloc: Global,
    forest: &Forest,
    around: &A,
    links: &[Link],
    first: Asked,
    context: &Context,
) -> Result<Asked, AllocError>
    requires fixed { list_all is_fixed_link links.now ≡ true }
    requires ready { IsReady (A.given around.now) forest.now.forest.nodes context.now }
    requires first { Stands forest.now.forest.nodes first }
    ensures tells { IfOk result (λ told. (a : lang.Asked) → Tells forest.now.forest.nodes first a → Tells forest.now.forest.nodes told (links_asked (map trace_of_link links.now) (shape_at (A.given around.now) forest.now.forest.nodes context.now) (focus_of context.now) a)) }
    ensures stands { IfOk result (λ told. Stands forest.now.forest.nodes told) }
{
    let mut left = first;
    for link in links {
        left = linked(alloc, forest, around, link, left, context)?;
    }
    Ok(left)
}

/// What one operator asks.
#[cycle(asks)]
fn linked<A: Around>(
    alloc: Global,
    forest: &Forest,
    around: &A,
    link: &Link,
    left: Asked,
    context: &Context,
) -> Result<Asked, AllocError>
    requires fixed { is_fixed_link link.now ≡ true }
    requires ready { IsReady (A.given around.now) forest.now.forest.nodes context.now }
    requires left { Stands forest.now.forest.nodes left }
    ensures tells { IfOk result (λ told. (a : lang.Asked) → Tells forest.now.forest.nodes left a → Tells forest.now.forest.nodes told (link_asked link.now.operator (shape_at (A.given around.now) forest.now.forest.nodes context.now) a ((trace link.now.right).asked (shape_at (A.given around.now) forest.now.forest.nodes context.now) (focus_of context.now)))) }
    ensures stands { IfOk result (λ told. Stands forest.now.forest.nodes told) }
{
    let right = asked_of(alloc, forest, around, &link.right, context)?;
    operated(alloc, forest, link.operator, left, right)
}

/// What an operator asks of what its sides ask.
fn operated(
    alloc: Global,
    forest: &Forest,
    operator: Operator,
    left: Asked,
    right: Asked,
) -> Result<Asked, AllocError>
    requires left { Stands forest.now.forest.nodes left }
    requires right { Stands forest.now.forest.nodes right }
    ensures tells { IfOk result (λ told. (s : Setting) → s.all ≡ shaped forest.now.forest.nodes → (a b : lang.Asked) → Tells forest.now.forest.nodes left a → Tells forest.now.forest.nodes right b → Tells forest.now.forest.nodes told (link_asked operator s a b)) }
    ensures stands { IfOk result (λ told. Stands forest.now.forest.nodes told) }
{
    match operator {
        Operator::Or | Operator::And => Ok(as_truth(alloc, both(alloc, left, right)?)),
        Operator::Add
        | Operator::Subtract
        | Operator::Multiply
        | Operator::Divide
        | Operator::Modulo => computed(alloc, forest, left, right),
        Operator::Union => either(alloc, forest, left, right),
        _ => compared(alloc, forest, left, right),
    }
}
