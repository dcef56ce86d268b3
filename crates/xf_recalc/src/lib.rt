//! The work of a recalculation (XForms 1.1, section 4.3.2).
#![tactic(auto)]

mod evaluate;
mod fault;
mod order;
mod recalculation;
mod truths;
mod turn;

pub use fault::SettleFault;
pub use recalculation::settle;
