//! What expressions are evaluated with: the data, the indexes and the event around them, the context of an element under a chain of rows, what
//! bindings select, and the texts of labels and messages.
#![tactic(auto)]

mod around;
mod bound;
mod indexes;
mod inside;
pub mod nested;
mod over;
mod rows;
mod texts;

pub use around::{Surroundings, document, document_of, documents};
pub use bound::{all_bound, alone, binding_at, bound_text, first_bound, first_selected, text_or};
pub use indexes::{Index, index_of, number_of};
pub use inside::{
    Inside, Place, Situation, context_in, context_of, context_under, enter, entered, inside_under,
};
pub use over::{Over, are_live, is_live, text, truth, value, whole};
pub use rows::{all_at, standing_in};
pub use texts::text_in;
