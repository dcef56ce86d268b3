//! The text of a state: its instances, its repeats with their indexes and how many rows they have, its switches with their selected cases, and
//! the copies of its controls with the numbers of their rows.
#![tactic(auto)]

mod copies;
mod levels;
mod rows;
mod state;
mod switches;

pub use state::push_state;
