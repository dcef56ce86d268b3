//! What changes rows and slots together: trees that come in, go into place and go, roots, texts that are set and kept.
#![tactic(auto)]

mod attach;
mod drop;
mod kept;
mod root;
mod run;
mod tree;

pub use attach::{elements_over, has_deep, place_tree};
pub use drop::{are_whole, drop_kept, drop_newer, free_rows};
pub use kept::{
    add_text, change_value, free_all, free_texts, keep_texts, make_room, passed, size_of_texts,
    take_kept, text_count, texts_in,
};
pub use root::root_over;
pub use run::change_texts;
pub use tree::{contents_of, push_tree, size_of_tree};
