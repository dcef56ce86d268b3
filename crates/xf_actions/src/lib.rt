//! How an event is dispatched, and what its actions do, over any world that is the form machine.
#![tactic(auto)]

mod act;
mod acting;
mod choose;
mod defaults;
mod delete;
mod fault;
mod fired;
mod insert;
mod note;
mod parts;
mod place;
mod reset;
mod round;
mod tell;
mod work;
mod world;

pub use act::{dispatch, update};
pub use acting::Acting;
pub use fault::EventFault;
pub use fired::{Concluded, Ending, Fired, FiredList};
pub use place::{Inserting, Place, PlaceList};
pub use world::{Flag, World};
pub use xf_def_ui::{Focus, Property, PropertyList};
