//! What is read of the elements of a form: what stands around one, the model in scope at it, what it binds, the element that an id names,
//! the handlers of an observer, and what stands in it.
#![tactic(auto)]

mod around;
mod bindings;
mod element;
mod handlers;
mod names;
mod parts;
mod scope;
pub mod switch;

pub use around::{ancestors, chain, repeats_around, switches_around};
pub use bindings::{Bound, binding_of};
pub use element::{element_in, parent_of};
pub use handlers::handlers_at;
pub use names::{Names, element_named, names_of};
pub use parts::{host_parts, own_text, parts_at};
pub use scope::{model_at, scope_of};
