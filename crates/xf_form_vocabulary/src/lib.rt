//! The vocabulary of a form: which elements and attributes it may have, where, and with which texts.
#![tactic(auto)]

pub mod attribute;
mod attributes;
mod classes;
mod faults;
mod needs;
mod placement;
mod rules;
mod tag;
mod tags;
mod texts;

pub use attribute::Known;
pub use attributes::{has, known_of, text_of};
pub use classes::{
    has_properties, is_action, is_container, is_control, is_counted, is_passed_over, keeps_text,
    tells_text,
};
pub use faults::{has_bad_expression, has_bad_text, has_bad_type, has_moving_expression, type_of};
pub use needs::lacks;
pub use placement::may_stand;
pub use rules::{Wanted, choice_of, is_computed, is_expression, wanted_of};
pub use tag::Tag;
pub use tags::{is_space, schema_tag_of, tag_of};
pub use texts::{Choice, allows, decimals_in, is_count};
