//! What an expression means: what it selects, what it is worth, what it reads and looks at. Types and definitions.
#![tactic(auto)]

mod context;
mod fault;
mod value;

pub use context::Context;
pub use fault::EvalFault;
pub use value::Value;
