//! The copies of the controls and containers of a form, made afresh over the data, and what a refresh tells of them.
#![tactic(auto)]

mod before;
mod binding;
mod bound;
mod copy;
mod element;
mod finding;
mod fixed;
mod handed;
mod known;
mod over;
mod refresh;
mod shown;
mod value;
mod walk;

pub use bound::are_bound;
pub use copy::{ControlCopy, ControlList, control_of};
pub use element::{are_children, is_first_alone, is_plain};
pub use finding::known_nodes;
pub use known::{Known, KnownList};
pub use refresh::{Notification, NotificationList, notifications};
pub use shown::Shown;
pub use walk::{controls, is_passed};
