//! The functions of expressions that work on plain values.
#![tactic(auto)]

mod calls;
mod conversions;
mod dates;
mod fault;
mod given;
mod numbers;
mod searching;
mod served;
mod strings;
mod substring;
mod text;
mod translate;

pub use calls::call;
pub use fault::FuncFault;
pub use served::is_served;
pub use xf_def_values::Plain;
