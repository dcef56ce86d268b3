//! Which expressions ask for a position or size (XPath 1.0, section 4.1).

ghost use Rattle.std.specs.Prelude.{◌≡◌, map};
ghost use Rattle.xf_def_xpath.specs.Table.{function_at};
ghost use Rattle.xf_def_model.specs.Rules.{calls_place, is_place, rule_of, some};
ghost use Rattle.xf_binds.specs.Held.{entry_of};
ghost use Rattle.xf_recalc_pertinent.specs.Begun.{is_placed_in};
ghost use Rattle.xf_recalc_pertinent.specs.Called.{link_calls_place, step_calls_place};

use xf_binds::Entry;
use xf_binds_rebuild::expression_of;
use xf_def_syntax::{Bind, Expr, Link, Step};
use xf_eval::{Kind, kind_of};

/// Whether the expression of an entry asks for its position or size.
pub(crate) fn is_placed(binds: &[Bind], entry: &Entry) -> bool
    ensures { result ≡ is_placed_in (map rule_of binds.now) (entry_of entry.now) }
{
    match expression_of(binds, *entry) {
        Some(expr) => calls_place(expr),
        None => false,
    }
}

// ---- calls of `position()` and `last()`

#[cycle(placed)]
fn calls_place(expr: &Expr) -> bool
    ensures { result ≡ calls_place expr.now }
{
    match expr {
        Expr::Number(_, _) | Expr::Literal(_, _) => false,
        Expr::Call(_, code, arguments) => is_place(*code) || any_calls_place(arguments.as_slice()),
        Expr::Negated(_, _, inner) => calls_place(inner.get()),
        Expr::Chain(first, links) => {
            calls_place(first.get()) || any_link_calls_place(links.as_slice())
        }
        Expr::Filter(first, predicates) => {
            calls_place(first.get()) || any_calls_place(predicates.as_slice())
        }
        Expr::Path(_, _, steps) => any_step_calls_place(steps.as_slice()),
        Expr::From(first, steps) => {
            calls_place(first.get()) || any_step_calls_place(steps.as_slice())
        }
    }
}

fn is_place(code: u16) -> bool
    ensures { result ≡ is_place (function_at code) }
{
    match kind_of(code) {
        Kind::Position | Kind::Last => true,
        _ => false,
    }
}

#[cycle(placed)]
fn any_calls_place(exprs: &[Expr]) -> bool
    ensures { result ≡ some (map calls_place exprs.now) }
{
    for expr in exprs {
        if calls_place(expr) {
            return true;
        }
    }
    false
}

#[cycle(placed)]
fn any_link_calls_place(links: &[Link]) -> bool
    ensures { result ≡ some (map link_calls_place links.now) }
{
    for link in links {
        if link_calls_place(link) {
            return true;
        }
    }
    false
}

#[cycle(placed)]
fn link_calls_place(link: &Link) -> bool
    ensures { result ≡ link_calls_place link.now }
{
    calls_place(&link.right)
}

#[cycle(placed)]
fn any_step_calls_place(steps: &[Step]) -> bool
    ensures { result ≡ some (map step_calls_place steps.now) }
{
    for step in steps {
        if step_calls_place(step) {
            return true;
        }
    }
    false
}

#[cycle(placed)]
fn step_calls_place(step: &Step) -> bool
    ensures { result ≡ step_calls_place step.now }
{
    any_calls_place(step.predicates.as_slice())
}
