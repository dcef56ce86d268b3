//! The form machine over what an engine works on: a `World`, over which dispatch, actions and updates run.
#![tactic(auto, unfolding(xf_actions::specs::Performs::Refuses))]

mod asking;
mod behaviours;
mod calls_made;
mod changed;
mod choosing;
mod construction;
mod due;
mod elements;
mod fault;
mod form_world;
mod handlers;
mod holding;
mod machine;
mod noting;
mod planning;
mod reading;
mod replacing;
mod sending;
mod speaking;
mod submitting;
mod surrounding;
mod telling;
mod trees;
mod trying;
mod world;

pub use form_world::FormWorld;
