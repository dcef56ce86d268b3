//! The calls of xf_path, and syntax trees in one line: docs/CONTRIBUTING.md says how each part is spelt. The prefix `p` is known.

use crate::calls::{Answer, arguments, decimals_before};
use crate::names::prefixes_of;
use std::alloc::{AllocError, Global};
use xf_def_syntax::{Axis, Expr, Link, Operator, Start, Step, Test};
use xf_name::{Prefixes, Word};
use xf_num::{Decimals, Num};
use xf_path::{ParseFault, parse};
use xf_table::functions::rows;

type Pushed = Result<(), AllocError>;

pub fn answer(alloc: Global, call: &str, given: &[Word]) -> Answer {
    match (call, decimals_before(given, 1), arguments(given, 1)) {
        ("parse", Some(decimals), [text]) => parsed(alloc, text.as_str(), decimals),
        _ => Ok(None),
    }
}

fn parsed(alloc: Global, text: &str, decimals: Decimals) -> Answer {
    match prefixes_of(alloc, "[\"f\",{\"xmlns:p\":\"urn:p\"}]")? {
        Ok(prefixes) => parsed_over(alloc, text, &prefixes, decimals),
        Err(_) => Ok(None),
    }
}

/// The tree of a text, or its fault and the place of that.
fn parsed_over(alloc: Global, text: &str, prefixes: &Prefixes, decimals: Decimals) -> Answer {
    match parse(alloc, text, prefixes, decimals) {
        Ok(tree) => spelled(alloc, &tree, decimals),
        Err(ParseFault::Expr(place, kind)) => Ok(Some(format!(in alloc; "{kind:?} {place}")?)),
        Err(ParseFault::Memory) => Err(AllocError),
    }
}

fn spelled(alloc: Global, tree: &Expr, decimals: Decimals) -> Answer {
    let mut out = String::new(alloc);
    push_expr(alloc, &mut out, tree, decimals)?;
    Ok(Some(out))
}

// Each `?` of a function that calls itself again is dear to prove, so what lies between two such calls is pushed by one.

#[cycle(trees)]
fn push_expr(alloc: Global, out: &mut String, tree: &Expr, decimals: Decimals) -> Pushed {
    match tree {
        Expr::Number(place, value) => push_number(alloc, out, *place, *value, decimals),
        Expr::Literal(place, text) => push_at(alloc, out, *place, &["'", text.as_str(), "'"]),
        Expr::Call(place, code, given) => {
            push_at(alloc, out, *place, &[name_of(*code)])?;
            push_exprs(alloc, out, &["(", ",", ")"], given.as_slice(), decimals)
        }
        Expr::Negated(place, count, inner) => {
            push_signs(alloc, out, *place, *count)?;
            push_expr(alloc, out, inner.get(), decimals)?;
            out.push_str(")")
        }
        Expr::Chain(first, links) => {
            out.push_str("(")?;
            push_expr(alloc, out, first.get(), decimals)?;
            push_links(alloc, out, links.as_slice(), decimals)
        }
        Expr::Filter(inner, predicates) => {
            out.push_str("{")?;
            push_expr(alloc, out, inner.get(), decimals)?;
            push_exprs(
                alloc,
                out,
                &[" where ", " and ", "}"],
                predicates.as_slice(),
                decimals,
            )
        }
        Expr::Path(place, start, steps) => {
            push_place(alloc, out, *place)?;
            push_steps(alloc, out, opening(start), steps.as_slice(), decimals)
        }
        Expr::From(inner, steps) => {
            out.push_str("{")?;
            push_expr(alloc, out, inner.get(), decimals)?;
            push_steps(alloc, out, "}[", steps.as_slice(), decimals)
        }
    }
}

/// Trees with what stands before them, between each two and behind them.
#[cycle(trees)]
fn push_exprs(
    alloc: Global,
    out: &mut String,
    marks: &[&str; 3],
    trees: &[Expr],
    decimals: Decimals,
) -> Pushed {
    out.push_str(marks[0])?;
    for (i, tree) in trees.iter().enumerate() {
        out.push_str(if i == 0 { "" } else { marks[1] })?;
        push_expr(alloc, out, tree, decimals)?;
    }
    out.push_str(marks[2])
}

#[cycle(trees)]
fn push_links(alloc: Global, out: &mut String, links: &[Link], decimals: Decimals) -> Pushed {
    for link in links {
        push_operator(alloc, out, link.operator, link.place)?;
        push_expr(alloc, out, &link.right, decimals)?;
    }
    out.push_str(")")
}

#[cycle(trees)]
fn push_steps(
    alloc: Global,
    out: &mut String,
    front: &str,
    steps: &[Step],
    decimals: Decimals,
) -> Pushed {
    out.push_str(front)?;
    for (i, step) in steps.iter().enumerate() {
        push_head(alloc, out, i != 0, step)?;
        push_predicates(alloc, out, step.predicates.as_slice(), decimals)?;
    }
    out.push_str("]")
}

#[cycle(trees)]
fn push_predicates(
    alloc: Global,
    out: &mut String,
    predicates: &[Expr],
    decimals: Decimals,
) -> Pushed {
    for predicate in predicates {
        out.push_str("[")?;
        push_expr(alloc, out, predicate, decimals)?;
        out.push_str("]")?;
    }
    Ok(())
}

/// A step without its predicates: a blank behind another step, its place, `//` where that stands before it, its axis and its test.
fn push_head(alloc: Global, out: &mut String, is_behind: bool, step: &Step) -> Pushed {
    out.push_str(if is_behind { " " } else { "" })?;
    push_at(
        alloc,
        out,
        step.place,
        &[if step.is_below { "//" } else { "" }],
    )?;
    match (step.is_written, step.axis, &step.test) {
        (false, Axis::Self_, Test::Node) => out.push_str("."),
        (false, Axis::Parent, Test::Node) => out.push_str(".."),
        (is_written, axis, test) => {
            push_all(out, &[if is_written { "" } else { "~" }, axis_mark(axis)])?;
            push_test(alloc, out, test)
        }
    }
}

/// A node test, with the namespace's number before a name that has one.
fn push_test(alloc: Global, out: &mut String, test: &Test) -> Pushed {
    match test {
        Test::Name(name) => {
            if name.space != 0 || name.prefix != 0 {
                push_space(alloc, out, name.space)?;
            }
            out.push_str(name.local.as_str())
        }
        Test::InSpace(space) => {
            push_space(alloc, out, *space)?;
            out.push_str("*")
        }
        Test::AnyName => out.push_str("*"),
        Test::Text => out.push_str("text()"),
        Test::Node => out.push_str("node()"),
        Test::Nothing => out.push_str("nothing()"),
    }
}

fn push_space(alloc: Global, out: &mut String, space: u16) -> Pushed {
    out.push_str("{")?;
    push_place(alloc, out, u32::from(space))?;
    out.push_str("}")
}

fn push_number(
    alloc: Global,
    out: &mut String,
    place: u32,
    value: Num,
    decimals: Decimals,
) -> Pushed {
    push_at(alloc, out, place, &[":"])?;
    out.push_str(value.print(alloc, decimals)?.as_str())
}

/// Minus signs, by the place of the first and how many they are, before what they negate.
fn push_signs(alloc: Global, out: &mut String, place: u32, count: u32) -> Pushed {
    push_at(alloc, out, place, &["-"])?;
    push_at(alloc, out, count, &["("])
}

fn push_operator(alloc: Global, out: &mut String, operator: Operator, place: u32) -> Pushed {
    push_all(out, &[" ", sign(operator)])?;
    push_at(alloc, out, place, &[" "])
}

/// A place and what stands behind it.
fn push_at(alloc: Global, out: &mut String, place: u32, parts: &[&str]) -> Pushed {
    push_place(alloc, out, place)?;
    push_all(out, parts)
}

fn push_place(alloc: Global, out: &mut String, place: u32) -> Pushed {
    out.push_str(place.to_string(alloc)?.as_str())
}

fn push_all(out: &mut String, parts: &[&str]) -> Pushed {
    for part in parts {
        out.push_str(part)?;
    }
    Ok(())
}

fn name_of(code: u16) -> &'static str {
    match rows().get(code as usize) {
        Some(row) => row.name,
        None => "?",
    }
}

/// What stands before the steps of a path.
fn opening(start: &Start) -> &'static str {
    match start {
        Start::Root => "/[",
        Start::Context => "[",
    }
}

/// What stands before the test of a step on an axis; nothing on the axis of children.
fn axis_mark(axis: Axis) -> &'static str {
    match axis {
        Axis::Child => "",
        Axis::Attribute => "@",
        Axis::Self_ => "self::",
        Axis::Parent => "parent::",
        Axis::Ancestor => "ancestor::",
        Axis::AncestorOrSelf => "ancestor-or-self::",
        Axis::Descendant => "descendant::",
        Axis::DescendantOrSelf => "descendant-or-self::",
        Axis::FollowingSibling => "following-sibling::",
        Axis::PrecedingSibling => "preceding-sibling::",
    }
}

fn sign(operator: Operator) -> &'static str {
    match operator {
        Operator::Or => "or",
        Operator::And => "and",
        Operator::Equal => "=",
        Operator::NotEqual => "!=",
        Operator::Less => "<",
        Operator::LessOrEqual => "<=",
        Operator::Greater => ">",
        Operator::GreaterOrEqual => ">=",
        Operator::Add => "+",
        Operator::Subtract => "-",
        Operator::Multiply => "*",
        Operator::Divide => "div",
        Operator::Modulo => "mod",
        Operator::Union => "|",
    }
}
