//! The words of the grammar (XPath 1.0, sections 2.2, 2.3 and 3.7).

ghost use Rattle.std.specs.Prelude.{◌≡◌, option_map};
ghost use Rattle.xf_path.specs.Steps as steps;
ghost use Rattle.xf_path.specs.Paths as paths;
ghost use Rattle.xf_path.specs.Calls as calls;
ghost use Rattle.xf_path.specs.Primary as primary;
ghost use Rattle.xf_path.specs.Operators as operators;

use crate::token::Kind;
use xf_def_syntax::{Axis, Operator, Test};

/// The axis of a name.
#[tactic(auto, unfolding(crate::specs::Steps::axis_called))]
pub fn axis_called(text: &str) -> Option<Axis>
    ensures { result ≡ steps.axis_called text.now }
{
    if text == "child" {
        return Some(Axis::Child);
    }
    if text == "attribute" {
        return Some(Axis::Attribute);
    }
    if text == "self" {
        return Some(Axis::Self_);
    }
    if text == "parent" {
        return Some(Axis::Parent);
    }
    if text == "ancestor" {
        return Some(Axis::Ancestor);
    }
    if text == "ancestor-or-self" {
        return Some(Axis::AncestorOrSelf);
    }
    if text == "descendant" {
        return Some(Axis::Descendant);
    }
    if text == "descendant-or-self" {
        return Some(Axis::DescendantOrSelf);
    }
    if text == "following-sibling" {
        return Some(Axis::FollowingSibling);
    }
    if text == "preceding-sibling" {
        return Some(Axis::PrecedingSibling);
    }
    None
}

/// The test of a node type.
#[tactic(auto, unfolding(crate::specs::Steps::type_called))]
pub fn type_called(text: &str) -> Option<Test>
    ensures { result ≡ steps.type_called text.now }
{
    if text == "text" {
        return Some(Test::Text);
    }
    if text == "node" {
        return Some(Test::Node);
    }
    if text == "comment" || text == "processing-instruction" {
        return Some(Test::Nothing);
    }
    None
}

/// Whether a token begins an expression that is no location path.
pub fn begins_primary(kind: Kind, text: &str) -> bool
    ensures { result ≡ primary.begins_primary kind text.now }
{
    match kind {
        Kind::Open | Kind::Number | Kind::Literal => true,
        Kind::Called => type_called(text).is_none(),
        _ => false,
    }
}

/// Whether a token begins a step behind a `/`.
pub fn begins_step(kind: Kind) -> bool
    ensures { result ≡ paths.begins_step kind }
{
    match kind {
        Kind::Name
        | Kind::Called
        | Kind::AxisName
        | Kind::SpaceStar
        | Kind::Star
        | Kind::At
        | Kind::Dot
        | Kind::DotDot => true,
        _ => false,
    }
}

/// Whether a token begins a predicate.
pub fn opens_predicate(kind: Kind) -> bool
    ensures { result ≡ steps.opens_predicate kind }
{
    match kind {
        Kind::OpenSquare => true,
        _ => false,
    }
}

/// Whether a token stands between arguments.
pub fn is_comma(kind: Kind) -> bool
    ensures { result ≡ calls.is_comma kind }
{
    match kind {
        Kind::Comma => true,
        _ => false,
    }
}

/// Whether a token stands between steps, and if so, whether it is `//`.
pub fn separator(kind: Kind) -> Option<bool>
    ensures { result ≡ paths.separator kind }
{
    match kind {
        Kind::Slash => Some(false),
        Kind::SlashSlash => Some(true),
        _ => None,
    }
}

/// Whether the answer of a function of this name hangs on the clock or on chance.
pub fn is_clock(text: &str) -> bool
    ensures { result ≡ calls.is_clock text.now }
{
    text == "now" || text == "local-date" || text == "local-dateTime" || text == "random"
}

/// The operator of a name.
fn operator_called(text: &str) -> Option<Operator>
    ensures { result ≡ operators.operator_called text.now }
{
    if text == "or" {
        return Some(Operator::Or);
    }
    if text == "and" {
        return Some(Operator::And);
    }
    if text == "div" {
        return Some(Operator::Divide);
    }
    if text == "mod" {
        return Some(Operator::Modulo);
    }
    None
}

/// The operator that a token is.
#[tactic(auto, unfolding(crate::specs::Operators::operator_of))]
fn operator_of(kind: Kind, text: &str) -> Option<Operator>
    ensures { result ≡ operators.operator_of kind text.now }
{
    match kind {
        Kind::Bar => Some(Operator::Union),
        Kind::Plus => Some(Operator::Add),
        Kind::Minus => Some(Operator::Subtract),
        Kind::Star => Some(Operator::Multiply),
        Kind::Equal => Some(Operator::Equal),
        Kind::NotEqual => Some(Operator::NotEqual),
        Kind::Less => Some(Operator::Less),
        Kind::LessOrEqual => Some(Operator::LessOrEqual),
        Kind::Greater => Some(Operator::Greater),
        Kind::GreaterOrEqual => Some(Operator::GreaterOrEqual),
        Kind::Name | Kind::Called | Kind::AxisName => operator_called(text),
        _ => None,
    }
}

/// The rank of an operator, the tightest being 0.
fn rank_of(operator: Operator) -> u32
    ensures { result ≡ operators.rank_of operator }
{
    match operator {
        Operator::Union => 0,
        Operator::Multiply | Operator::Divide | Operator::Modulo => 1,
        Operator::Add | Operator::Subtract => 2,
        Operator::Less | Operator::LessOrEqual | Operator::Greater | Operator::GreaterOrEqual => 3,
        Operator::Equal | Operator::NotEqual => 4,
        Operator::And => 5,
        Operator::Or => 6,
    }
}

/// The rank of the operator that a token is.
pub fn next_rank(kind: Kind, text: &str) -> Option<u32>
    ensures { result ≡ option_map operators.rank_of (operators.operator_of kind text.now) }
{
    match operator_of(kind, text) {
        Some(operator) => Some(rank_of(operator)),
        None => None,
    }
}

/// The operator of a rank that a token is.
pub fn operator_at(rank: u32, kind: Kind, text: &str) -> Option<Operator>
    ensures { result ≡ operators.operator_at rank kind text.now }
{
    match operator_of(kind, text) {
        Some(operator) => {
            if rank_of(operator) == rank {
                return Some(operator);
            }
            None
        }
        None => None,
    }
}
