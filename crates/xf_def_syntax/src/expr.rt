//! The syntax tree of an expression (XPath 1.0, sections 2 and 3). A place is the number of bytes before a part in the text that was
//! parsed.

use xf_base::{Boxed, Items};
use xf_name::{Axis, QName, Word};
use xf_num::Num;

/// What a step asks of a node (XPath 1.0, section 2.3).
#[derive(Drop)]
pub enum Test {
    /// An element, or on the attribute axis an attribute, of this namespace and local name.
    Name(QName),
    /// `p:*`: one of this namespace.
    InSpace(u16),
    /// `*`: any one.
    AnyName,
    /// `text()`.
    Text,
    /// `node()`.
    Node,
    /// `comment()` or `processing-instruction()`: no node of a form's data.
    Nothing,
}

/// The operators with two sides (XPath 1.0, sections 3.3 to 3.5).
#[derive(Clone, Copy, Debug, PartialEq, Eq)]
pub enum Operator {
    Or,
    And,
    Equal,
    NotEqual,
    Less,
    LessOrEqual,
    Greater,
    GreaterOrEqual,
    Add,
    Subtract,
    Multiply,
    Divide,
    Modulo,
    Union,
}

/// Where a location path starts: at the root of the context node's tree, or at the context node.
#[derive(Clone, Copy, Debug, PartialEq, Eq)]
pub enum Start {
    Root,
    Context,
}

/// Expressions: arguments or predicates.
pub type ExprList = Items<Expr>;

/// The operators of a chain with their right sides.
pub type LinkList = Items<Link>;

/// The steps of a path.
pub type StepList = Items<Step>;

/// An expression. Parentheses leave no trace but in what they hold together.
#[cycle(expr)]
#[derive(Drop)]
pub enum Expr {
    /// A number, with its place.
    Number(u32, Num),
    /// A literal without its quotes, with its place.
    Literal(u32, Word),
    /// A function by its code in the table of functions, with its place and its arguments.
    Call(u32, u16, ExprList),
    /// Unary minus signs, as many as there are, with the place of the first.
    Negated(u32, u32, Boxed<Expr>),
    /// Operators of one rank from left to right.
    Chain(Boxed<Expr>, LinkList),
    /// An expression that is no location path, or one in parentheses, with predicates.
    Filter(Boxed<Expr>, ExprList),
    /// A location path with its place: its start and its steps, of which `/` alone has none.
    Path(u32, Start, StepList),
    /// A path from the nodes of an expression.
    From(Boxed<Expr>, StepList),
}

/// An operator of a chain, with its place and its right side.
#[cycle(expr)]
#[derive(Drop)]
pub struct Link {
    pub place: u32,
    pub operator: Operator,
    pub right: Expr,
}

/// A step of a path (XPath 1.0, section 2.1).
#[cycle(expr)]
#[derive(Drop)]
pub struct Step {
    pub place: u32,
    /// Whether `//` stands before it, in place of `/`.
    pub is_below: bool,
    /// Whether its node test is written out, as it is not in `.` and `..`.
    pub is_written: bool,
    pub axis: Axis,
    pub test: Test,
    pub predicates: ExprList,
}
