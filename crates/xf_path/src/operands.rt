//! Numbers and literals, and the nodes of the syntax tree that hold one part or more.

ghost use Rattle.std.specs.Prelude.{◌≡◌, ◌<◌, Ok, IfOk, option_map};
ghost use Rattle.xf_path.specs.Reading.{Reads};
ghost use Rattle.xf_path.specs.Primary as primary;
ghost use Rattle.xf_path.specs.Operators as operators;
ghost use Rattle.xf_path.specs.Grammar as spec;

use crate::fault::ParseFault;
use crate::lexer::first_char;
use crate::tokens::Tokens;
use std::alloc::{AllocError, Global};
use xf_base::Boxed;
use xf_def_syntax::{Expr, ExprList, LinkList};
use xf_name::Word;
use xf_num::{Decimals, Num};

#[tactic(auto, unfolding(crate::specs::Primary::number))]
pub fn number(tokens: &mut Tokens<'_>, decimals: Decimals) -> Expr
    ensures { primary.number decimals tokens.old ≡ Ok (result, tokens.new) }
{
    let place = tokens.place();
    let value = Num::read(tokens.text(), decimals);
    tokens.take();
    Expr::Number(place, value)
}

#[tactic(auto, unfolding(crate::specs::Primary::literal))]
pub fn literal(alloc: Global, tokens: &mut Tokens<'_>) -> Result<Expr, ParseFault>
    ensures { Reads (primary.literal tokens.old) result tokens.new }
{
    let place = tokens.place();
    let text = Word::from_str(alloc, unquoted(tokens.text()))?;
    tokens.take();
    Ok(Expr::Literal(place, text))
}

/// A literal without its quotes.
#[tactic(auto, unfolding(crate::specs::Primary::unquoted))]
fn unquoted(text: &str) -> &str
    ensures { result.now ≡ primary.unquoted text.now }
{
    let Some((quote, behind)) = first_char(text) else {
        return "";
    };
    if quote == '"' {
        return before_quote(behind, '"');
    }
    if quote == '\'' {
        return before_quote(behind, '\'');
    }
    ""
}

/// What stands before the first quote of this kind.
fn before_quote(text: &str, quote: char) -> &str
    requires { quote < 128 }
    ensures { result.now ≡ primary.before_quote quote text.now }
{
    match at_quote(text, quote) {
        Some((before, _)) => before,
        None => text,
    }
}

/// What stands before and after the first quote of this kind.
fn at_quote(text: &str, quote: char) -> Option<(&str, &str)>
    requires { quote < 128 }
    ensures { option_map (λ p. (p.0.now, p.1.now)) result ≡ primary.at_quote quote text.now }
{
    text.split_once(quote)
}

/// An expression and its predicates; without any it stands by itself.
pub fn filter_of(alloc: Global, first: Expr, found: ExprList) -> Result<Expr, AllocError>
    ensures { IfOk result (λ tree. tree ≡ primary.filter_of first found) }
{
    if found.is_empty() {
        return Ok(first);
    }
    Ok(Expr::Filter(Boxed::new(alloc, first)?, found))
}

/// An operand and its links; without any it stands by itself.
pub fn chain_of(alloc: Global, first: Expr, found: LinkList) -> Result<Expr, AllocError>
    ensures { IfOk result (λ tree. tree ≡ operators.chain_of first found) }
{
    if found.is_empty() {
        return Ok(first);
    }
    Ok(Expr::Chain(Boxed::new(alloc, first)?, found))
}

/// An operand behind so many signs.
pub fn negated(alloc: Global, place: u32, signs: u32, inner: Expr) -> Result<Expr, AllocError>
    ensures { IfOk result (λ tree. tree ≡ spec.negated place signs inner) }
{
    if signs == 0 {
        return Ok(inner);
    }
    Ok(Expr::Negated(place, signs, Boxed::new(alloc, inner)?))
}
