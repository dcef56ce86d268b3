//! Dates and durations: the days and seconds that texts stand for, and the texts of days and seconds.
#![tactic(auto)]

mod days;
mod decimals;
mod durations;
mod instants;
mod printing;

pub use days::day_of;
pub use durations::duration;
pub use instants::seconds_of;
pub use printing::{date_of, moment_of};
