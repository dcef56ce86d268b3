//! Words, names, axes and literal trees.
#![tactic(auto)]

mod axis;
mod fault;
mod faults;
mod form_names;
mod lit;
mod part;
mod prefixes;
mod qname;
mod word;

pub use axis::Axis;
pub use fault::{NameFault, SurveyFault};
pub use form_names::{FirstFault, Surveyed, collect, survey};
pub use lit::{Lit, LitElement, LitList, Pair, PairList};
pub use part::{at_colon, begins_part, continues_part, is_part};
pub use prefixes::Prefixes;
pub use qname::QName;
pub use word::Word;
