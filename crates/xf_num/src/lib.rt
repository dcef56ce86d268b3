//! Decimal numbers, their arithmetic, reading and printing, and a counter of steps.
#![tactic(auto)]

mod number;
mod printing;
mod reading;
mod scales;
mod steps;
mod text;

pub use number::Num;
pub use reading::{digits_onto, with_decimals};
pub use scales::Decimals;
pub use steps::Steps;
pub use text::{after_digits, all_digits, is_digit, is_space, trimmed};
