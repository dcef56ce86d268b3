//! Which functions there are, and what they take.

ghost use Rattle.std.specs.Prelude.{◌≡◌, map, option_map};
ghost use Rattle.std.specs.List.{list_all};
ghost use Rattle.xf_table.specs.Rows.{entry_of};
ghost use Rattle.xf_table.specs.Contents.{function_entries};
ghost use Rattle.xf_path.specs.Calls as spec;
ghost use Rattle.xf_path.specs.Reading.{IsFault, place_of, text_of};

use crate::fault::{ExprKind, ParseFault};
use crate::tokens::Tokens;
use crate::words::is_clock;
use xf_def_syntax::{Expr, Link, Operator};
use xf_name::{NameFault, Prefixes};
use xf_table::Row;
use xf_table::functions::{GIVES_NODES, TAKES_NODES, rows};

/// The row of a code.
fn row_at(code: u16) -> Option<&'static Row>
    ensures { option_map (λ row. entry_of row.now) result ≡ spec.entry_at function_entries code }
{
    match rows().get(code as usize) {
        Some(row) => Some(row),
        None => None,
    }
}

/// The fault of a name that the table has not.
pub fn unknown(prefixes: &Prefixes, tokens: &Tokens<'_>) -> ParseFault
    ensures { IsFault (spec.unknown prefixes.now (text_of tokens.now)) (place_of tokens.now) result }
{
    if is_clock(tokens.text()) {
        return tokens.fault(ExprKind::ClockOrRandom);
    }
    match prefixes.resolve(tokens.text(), 0) {
        Ok(_) => tokens.fault(ExprKind::UnknownFunction),
        Err(NameFault::Memory) => ParseFault::Memory,
        Err(NameFault::PrefixUnknown) => tokens.fault(ExprKind::Prefix),
        Err(_) => tokens.fault(ExprKind::Syntax),
    }
}

/// Whether a function takes these arguments.
pub fn takes(code: u16, arguments: &[Expr]) -> bool
    ensures { result ≡ spec.takes (spec.entry_at function_entries code) arguments.now }
{
    let Some(row) = row_at(code) else {
        return false;
    };
    if arguments.len() < row.least as usize || (row.most as usize) < arguments.len() {
        return false;
    }
    row.marks != TAKES_NODES || all_may_give_nodes(arguments)
}

fn all_may_give_nodes(arguments: &[Expr]) -> bool
    ensures { result ≡ list_all spec.may_give_nodes arguments.now }
{
    for argument in arguments {
        if !may_give_nodes(argument) {
            return false;
        }
    }
    true
}

/// Whether an expression may give nodes, by its syntax.
fn may_give_nodes(expr: &Expr) -> bool
    ensures { result ≡ spec.may_give_nodes expr.now }
{
    match expr {
        Expr::Number(_, _) | Expr::Literal(_, _) | Expr::Negated(_, _, _) => false,
        Expr::Call(_, code, _) => gives_nodes(*code),
        Expr::Chain(_, links) => any_union(links.as_slice()),
        Expr::Filter(_, _) | Expr::Path(_, _, _) | Expr::From(_, _) => true,
    }
}

/// Whether a function may give nodes.
fn gives_nodes(code: u16) -> bool
    ensures { result ≡ spec.is_marked 2 (spec.entry_at function_entries code) }
{
    match row_at(code) {
        Some(row) => row.marks == GIVES_NODES,
        None => false,
    }
}

fn any_union(links: &[Link]) -> bool
    ensures { result ≡ spec.any_union (map spec.is_union_link links.now) }
{
    for link in links {
        if is_union(link) {
            return true;
        }
    }
    false
}

fn is_union(link: &Link) -> bool
    ensures { result ≡ spec.is_union_link link.now }
{
    match link.operator {
        Operator::Union => true,
        _ => false,
    }
}
