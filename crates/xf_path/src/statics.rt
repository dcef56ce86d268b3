//! Which expressions are static.

ghost use Rattle.std.specs.Prelude.{◌≡◌, length, map};
ghost use Rattle.std.specs.List.{list_any};
ghost use Rattle.xf_table.specs.Contents.{function_entries};
ghost use Rattle.xf_table.specs.Places.{name_at};
ghost use Rattle.xf_path.specs.StaticParts as parts;
ghost use Rattle.xf_path.specs.Static as spec;

use xf_def_syntax::{Expr, Link, Operator, Step};
use xf_table::functions::rows;

// ---- computed expressions

/// The place of the first part of a computed expression that is not static.
#[cycle(faults)]
pub fn static_fault(expr: &Expr) -> Option<u32>
    ensures { result ≡ spec.static_fault expr.now }
{
    match expr {
        Expr::Number(_, _) | Expr::Literal(_, _) => None,
        Expr::Call(place, code, arguments) => {
            let arguments = arguments.as_slice();
            or_else(call_fault(*place, *code, arguments), first_fault(arguments))
        }
        Expr::Negated(_, _, inner) => static_fault(inner.get()),
        Expr::Chain(first, links) => {
            or_else(static_fault(first.get()), first_in_links(links.as_slice()))
        }
        Expr::Filter(first, predicates) => or_else(
            static_fault(first.get()),
            first_in_predicates(predicates.as_slice()),
        ),
        Expr::Path(_, _, steps) => first_in_steps(steps.as_slice()),
        Expr::From(first, steps) => {
            or_else(static_fault(first.get()), first_in_steps(steps.as_slice()))
        }
    }
}

#[cycle(faults)]
fn first_fault(exprs: &[Expr]) -> Option<u32>
    ensures { result ≡ parts.first_fault (map spec.static_of exprs.now) }
{
    for expr in exprs {
        let found = static_fault(expr);
        if found.is_some() {
            return found;
        }
    }
    None
}

#[cycle(faults)]
fn first_in_links(links: &[Link]) -> Option<u32>
    ensures { result ≡ parts.first_in_links (map spec.static_of_link links.now) }
{
    for link in links {
        let found = link_fault(link);
        if found.is_some() {
            return found;
        }
    }
    None
}

#[cycle(faults)]
fn link_fault(link: &Link) -> Option<u32>
    ensures { result ≡ (spec.static_of_link link.now).right.fault }
{
    static_fault(&link.right)
}

fn first_in_steps(steps: &[Step]) -> Option<u32>
    ensures { result ≡ parts.first_in_steps (map spec.static_of_step steps.now) }
{
    for step in steps {
        let found = step_fault(step);
        if found.is_some() {
            return found;
        }
    }
    None
}

fn step_fault(step: &Step) -> Option<u32>
    ensures { result ≡ spec.static_of_step step.now }
{
    first_in_predicates(step.predicates.as_slice())
}

/// The first of two.
fn or_else(first: Option<u32>, second: Option<u32>) -> Option<u32>
    ensures { result ≡ parts.or_else first second }
{
    match first {
        Some(place) => Some(place),
        None => second,
    }
}

fn place_if(is_one: bool, place: u32) -> Option<u32>
    ensures { result ≡ parts.place_if is_one place }
{
    if is_one { Some(place) } else { None }
}

// ---- predicates

/// The place of the first part of an expression that may not stand in a predicate.
#[cycle(predicates)]
fn fault_in_predicate(expr: &Expr) -> Option<u32>
    ensures { result ≡ (spec.static_of expr.now).in_predicate }
{
    match expr {
        Expr::Number(_, _) | Expr::Literal(_, _) => None,
        Expr::Call(place, code, arguments) => {
            let arguments = arguments.as_slice();
            or_else(
                place_if(!is_plain_call(*code, arguments.len()), *place),
                first_in_predicates(arguments),
            )
        }
        Expr::Negated(_, _, inner) => fault_in_predicate(inner.get()),
        Expr::Chain(first, links) => or_else(
            fault_in_predicate(first.get()),
            first_link_in_predicate(links.as_slice()),
        ),
        Expr::Filter(_, _) | Expr::Path(_, _, _) | Expr::From(_, _) => Some(place_of(expr)),
    }
}

#[cycle(predicates)]
fn first_in_predicates(exprs: &[Expr]) -> Option<u32>
    ensures { result ≡ parts.first_in_predicates (map spec.static_of exprs.now) }
{
    for expr in exprs {
        let found = fault_in_predicate(expr);
        if found.is_some() {
            return found;
        }
    }
    None
}

#[cycle(predicates)]
fn first_link_in_predicate(links: &[Link]) -> Option<u32>
    ensures { result ≡ parts.first_of spec.link_in_predicate (map spec.static_of_link links.now) }
{
    for link in links {
        let found = link_in_predicate(link);
        if found.is_some() {
            return found;
        }
    }
    None
}

#[cycle(predicates)]
fn link_in_predicate(link: &Link) -> Option<u32>
    ensures { result ≡ spec.link_in_predicate (spec.static_of_link link.now) }
{
    or_else(
        place_if(is_union(link.operator), link.place),
        fault_in_predicate(&link.right),
    )
}

// ---- places and kinds

/// Where an expression begins.
#[cycle(places)]
fn place_of(expr: &Expr) -> u32
    ensures { result ≡ (spec.static_of expr.now).place }
{
    match expr {
        Expr::Number(place, _)
        | Expr::Literal(place, _)
        | Expr::Call(place, _, _)
        | Expr::Negated(place, _, _)
        | Expr::Path(place, _, _) => *place,
        Expr::Chain(first, _) | Expr::Filter(first, _) | Expr::From(first, _) => {
            place_of(first.get())
        }
    }
}

/// Whether an expression gives nodes by its syntax.
#[cycle(kinds)]
fn gives_nodes(expr: &Expr) -> bool
    ensures { result ≡ (spec.static_of expr.now).gives_nodes }
{
    match expr {
        Expr::Number(_, _) | Expr::Literal(_, _) | Expr::Negated(_, _, _) => false,
        Expr::Call(_, code, arguments) => {
            if is_one_of(*code, &["current", "event", "instance"]) {
                return true;
            }
            is_called(*code, "choose") && any_gives_nodes(arguments.as_slice())
        }
        Expr::Chain(_, links) => any_union(links.as_slice()),
        Expr::Filter(_, _) | Expr::Path(_, _, _) | Expr::From(_, _) => true,
    }
}

#[cycle(kinds)]
fn any_gives_nodes(exprs: &[Expr]) -> bool
    ensures { result ≡ parts.any_gives_nodes (map spec.static_of exprs.now) }
{
    for expr in exprs {
        if gives_nodes(expr) {
            return true;
        }
    }
    false
}

fn any_union(links: &[Link]) -> bool
    ensures { result ≡ spec.any_union (map spec.static_of_link links.now) }
{
    for link in links {
        if is_union(link.operator) {
            return true;
        }
    }
    false
}

fn is_union(operator: Operator) -> bool
    ensures { result ≡ spec.is_union operator }
{
    match operator {
        Operator::Union => true,
        _ => false,
    }
}

// ---- calls

/// What keeps a call from being static, its arguments apart.
fn call_fault(place: u32, code: u16, arguments: &[Expr]) -> Option<u32>
    ensures { result ≡ parts.call_fault place code (map spec.static_of arguments.now) }
{
    if is_one_of(code, &["index", "event"]) {
        return Some(place);
    }
    if is_called(code, "instance") {
        return place_if(!is_literal_call(arguments), place);
    }
    if is_called(code, "choose") {
        return node_branch(arguments);
    }
    None
}

/// Whether an argument, if any, is a literal.
fn is_literal_call(arguments: &[Expr]) -> bool
    ensures { result ≡ parts.is_literal_call (map spec.static_of arguments.now) }
{
    match arguments {
        [] => true,
        [argument, ..] => is_literal(argument),
    }
}

fn is_literal(expr: &Expr) -> bool
    ensures { result ≡ (spec.static_of expr.now).is_literal }
{
    match expr {
        Expr::Literal(_, _) => true,
        _ => false,
    }
}

/// The first branch that gives nodes.
fn node_branch(arguments: &[Expr]) -> Option<u32>
    ensures { result ≡ parts.node_branch (map spec.static_of arguments.now) }
{
    match arguments {
        [] => None,
        [_, branches @ ..] => first_of_nodes(branches),
    }
}

fn first_of_nodes(exprs: &[Expr]) -> Option<u32>
    ensures { result ≡ parts.first_of_nodes (map spec.static_of exprs.now) }
{
    for expr in exprs {
        if gives_nodes(expr) {
            return Some(place_of(expr));
        }
    }
    None
}

/// Whether a call stands for a plain value that hangs on its arguments and the position alone.
fn is_plain_call(code: u16, count: usize) -> bool
    ensures { result ≡ parts.is_plain_call code count }
{
    !asks_more(code) && !(asks_context(code) && count == 0)
}

/// Whether a function asks nodes, indexes or the event.
fn asks_more(code: u16) -> bool
    ensures { result ≡ parts.asks_more code }
{
    is_one_of(
        code,
        &[
            "avg",
            "count",
            "count-non-empty",
            "current",
            "event",
            "index",
            "instance",
            "local-name",
            "max",
            "min",
            "name",
            "namespace-uri",
            "sum",
        ],
    )
}

/// Whether a function asks the context node where no argument is written.
fn asks_context(code: u16) -> bool
    ensures { result ≡ parts.asks_context code }
{
    is_one_of(
        code,
        &["normalize-space", "number", "string", "string-length"],
    )
}

fn is_one_of(code: u16, names: &[&str]) -> bool
    ensures { result ≡ list_any (λ name. parts.is_called code name.now) names.now }
{
    for name in names {
        if is_called(code, name) {
            return true;
        }
    }
    false
}

fn is_called(code: u16, name: &str) -> bool
    ensures { result ≡ parts.is_called code name.now }
{
    name_of(code) == name
}

/// The name of the function with the code.
fn name_of(code: u16) -> &'static str
    ensures { result.now ≡ name_at function_entries code }
{
    match rows().get(code as usize) {
        Some(row) => row.name,
        None => "",
    }
}
