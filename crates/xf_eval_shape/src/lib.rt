//! What a computed expression reads and looks at, and which nodes the node set of a bind selects, over the shape of a forest, which is
//! never made.
#![tactic(auto)]

mod leaf;
mod nodes;
mod order;
mod places;
mod predicates;
mod spot;
mod steps;
mod walk;

pub use leaf::{entered, has_list, is_sound, is_text};
pub use nodes::{alone, document, selected};
pub use order::in_order;
pub use predicates::kept_by_all;
pub use spot::Spot;
pub use steps::{all_below, begun, taken};
pub use walk::is_kind;
