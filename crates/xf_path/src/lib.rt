//! Expressions from their texts.
#![tactic(auto)]

mod calls;
mod fault;
mod grammar;
mod lexer;
mod operands;
mod statics;
mod steps;
mod token;
mod tokens;
mod words;

pub use fault::{ExprKind, ParseFault};
pub use grammar::parse;
pub use statics::static_fault;
