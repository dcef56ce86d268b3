//! What is known of the refusal of a form beyond its line: the place in the bytes, the attribute, the place in the expression.
#![tactic(auto)]

mod attributes;
mod detail;
mod elements;
mod explaining;
mod expression;
mod found;
mod ids;
mod missing;
mod names;
mod search;
mod text;
mod unread;
mod words;

pub use detail::{Detail, Need};
pub use explaining::explain;
