//! The rows of repeats and their indexes (XForms 1.1, sections 9.3.1 and 10.5): which rows a repeat has, how the indexes start, follow the rows
//! and are set, and which copy of an element is meant.
#![tactic(auto)]

mod fault;
mod named;
mod noted;
mod passing;
mod placed;
mod rows;
mod rule;
mod starting;

pub use fault::IndexFault;
pub use named::{Target, handler_rows, indexed_rows, named_rows, rows_cut};
pub use passing::bring_up;
pub use rows::{rows_now, rows_of, seeing};
pub use starting::{set_index, started};
pub use xf_eval_context::Index;
