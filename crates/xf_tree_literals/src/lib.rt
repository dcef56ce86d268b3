//! Literal trees as the contents of nodes, or why they are refused, and the literal trees of nodes.
#![tactic(auto)]

mod bare;
mod bare_fault;
mod declare;
mod fault;
mod gather;
mod plant;
mod plant_bare;
mod print;
mod shown;
mod spaces;

pub use bare::bare_of_rows;
pub use bare_fault::fault_of_bare;
pub use fault::{has_deep, has_long, lit_fault};
pub use plant::contents_of_lit;
pub use plant_bare::contents_of_bare;
pub use print::lit_of_rows;
pub use shown::{numbers_of, printed_rows};
