//! What stands under keys: contents of nodes, their names, each kept once, and kept texts. Nothing here knows where a node stands.
#![tactic(auto)]

mod bearers;
mod limits;
mod names;
mod part;
mod seen;
mod slot;
mod slots;
mod sought;
mod written;

pub use bearers::Bearer;
pub use limits::ROW_LIMIT;
pub use part::Part;
pub use seen::{Seen, is_element, is_text, lent};
pub use slot::{
    below, content_of, duplicate, duplicate_meaning, free_kept, free_node, full_name,
    has_same_name, is_attribute_at, is_element_at, is_less_at, is_of_kind, is_root_at, is_text_at,
    kind, name, number_of, own, shown_at, size_at, size_in,
};
pub use slots::Slots;
pub use sought::{Principal, Sought};
pub use written::{name_for, no_name, same_written, written_less};
