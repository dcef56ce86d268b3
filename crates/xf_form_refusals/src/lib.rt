//! The elements of a form in document order, and its first refusal.
#![tactic(auto)]

mod classes;
mod decimals;
mod ids;
mod limits;
mod paths;
mod refusals;
mod rows;
mod schemas;
mod space;
mod standing;
mod walk;

pub use classes::{Class, class_of, is_model, is_of, is_switch};
pub use decimals::decimals_of;
pub use ids::{Ids, called, ids_of};
pub use refusals::{
    Refusal, bad_schema_of, count_elements, first_model, first_refusal, has_case, has_instance,
    refusal_of,
};
pub use rows::{Row, id_in, is_control_row, is_handler, is_inline, is_numbered};
pub use schemas::{names_of, types_of};
pub use standing::{Standing, Zone, is_instance, is_outside};
pub use walk::{rows_of, small};
