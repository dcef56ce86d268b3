//! Simple types: which are named, and which texts meet them.
#![tactic(auto)]

mod durations;
mod kind;
mod names;
mod numerals;
mod parts;
mod shapes;
mod spaces;
mod texts;
mod times;

pub use durations::{begins_with, is_duration, past_first, past_minus, past_part, past_parts};
pub use kind::{BuiltIn, SimpleType};
pub use names::named;
pub use shapes::{cut, two_digits};
pub use spaces::{char_count, is_space, normalized, split_first};
pub use texts::meets;
pub use times::{is_date, is_date_time, year_of};
