//! Laws of the form machine on which the program stands: behaviours that are due, failed submissions, notes and calls beside the state, a state at
//! rest, the data as construction left them.
#![tactic(auto)]

pub mod behaviours;
pub mod beside;
pub mod first;
pub mod rest;
