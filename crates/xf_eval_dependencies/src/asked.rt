//! What the parts of an expression ask of the data over the shape of a forest, which is never made: the nodes that are read, the lists that
//! are looked at, and the steps and operators that put them together.
mod asked;
mod lists;
mod steps;

pub use asked::{
    Asked, all_read, as_plain, as_truth, both, compared, computed, converted, either, nothing,
    tightly,
};
pub use lists::push_around;
pub use steps::{filtered, walks_asked};
