//! The evaluator: the value of an expression over a forest.
#![tactic(auto)]

mod around;
mod calls;
mod compare;
mod convert;
mod expression;
mod first;
mod kinds;
mod node_test;
mod of_nodes;
mod operand;
mod operators;
mod order;
mod places;
mod sets;
mod steps;
mod texts;
mod ways;

pub use around::Around;
pub use convert::{number_of, text_of, truth_of};
pub use expression::{evaluate, value_at};
pub use kinds::{Kind, kind_of};
pub use node_test::meets;
pub use places::{position_of, reached_placed};
pub use sets::{append, nodes_in, reached, single};
pub use steps::is_true_at;
pub use xf_def_xpath::{Context, EvalFault, Value};
