//! The behaviours rebuild and recalculate of a model (XForms 1.1, sections 4.3.1 and 4.3.2).
#![tactic(auto)]

mod expression;
mod fault;
mod laws;
mod readers;
mod rebuilding;
mod ring;
mod web;

pub use expression::expression_of;
pub use fault::RebuildFault;
pub use laws::{links_defined, pertinent_met, rebuild_tells, rebuilds_alike};
pub use rebuilding::rebuild;
