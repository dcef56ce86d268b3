//! Rows in document order, with room among them: places, sizes, the row of a parent, and moves of whole trees. A row has a key, and nothing here
//! knows what stands under one.
#![tactic(auto)]

mod hints;
mod moves;
mod parents;
mod row_slice;
mod rows;

pub use hints::Hints;
pub use moves::{cut, grow, lift_root, move_last, paste, shrink, sized};
pub use parents::parent_row;
pub use row_slice::{RowSlice, slice};
pub use rows::{Row, Rows, end_of};
