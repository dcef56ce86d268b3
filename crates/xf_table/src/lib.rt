//! Tables of names, looked up by halving.
#![tactic(auto)]

/// Rows, each written as its code, name, least and most arguments and marks.
macro_rules! table {
    ($($code:literal $name:literal $least:literal $most:literal $marks:literal;)*) => {
        [$(Row { name: $name, code: $code, least: $least, most: $most, marks: $marks }),*]
    };
}

pub mod attributes;
pub mod elements;
pub mod events;
pub mod functions;
mod look_up;
mod row;
pub mod types;

pub use look_up::{find, is_ordered};
pub use row::Row;
