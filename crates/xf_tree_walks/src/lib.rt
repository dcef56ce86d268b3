//! What is read of rows and slots together: where a node's row stands, what stands around it, what is sought there, its text and its path.
#![tactic(auto)]

mod axis;
mod child;
mod chosen;
mod chosen_row;
mod found;
mod lookup;
mod narrow;
mod order;
mod path;
mod pieces;
mod siblings;
mod text;
mod walk;

pub use axis::walk_from;
pub use child::{count_lesser, has_attribute, has_children, has_element};
pub use chosen::push_on_axis;
pub use chosen_row::row_on_axis;
pub use lookup::{is_kin_at, place_of, root_row, row_of, top_row, tops_end, tops_end_in};
pub use order::{copied, goes_up, sorted};
pub use path::path_at;
pub use pieces::{Pieces, are_texts, no_pieces, pieces_at, whole_at};
pub use text::text_at;
pub use walk::{Walk, no_walk};
