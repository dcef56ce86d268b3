//! The cases of switches (XForms 1.1, section 9.2): their places, the cases that are selected at first, and what stands in selected ones.
mod cases;
mod first;
mod selected;

pub use cases::{case_at, case_of, place_of_case};
pub use first::first_cases;
pub use selected::{is_in_selected, is_open};
