//! The properties of nodes: relevant, readonly, required, valid.
#![tactic(auto)]

mod above;
mod invalid;
mod marks;
mod nodes;

pub use invalid::revalidate;
pub use marks::marks_of;
pub use nodes::{is_required, is_valid, marks_at};
pub use xf_def_ui::Marks;
