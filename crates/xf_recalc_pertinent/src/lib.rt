//! Which entries of a model a recalculation evaluates (XForms 1.1, section 4.3.2 and appendix C), by what is kept of them: no expression
//! is evaluated.
#![tactic(auto)]

mod begun;
mod counting;
mod marks;
mod numbers;
mod placed;
mod spreading;
mod touched;

pub use counting::{pertinent_count, pertinent_marks};
pub use marks::MarkList;
