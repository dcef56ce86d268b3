//! The rows of a table.

/// What a table says of a name.
#[derive(Clone, Copy, Debug)]
pub struct Row {
    /// By the bytes of their names, the rows of a table rise strictly.
    pub name: &'static str,
    /// The place of the row in its table, from 0.
    pub code: u16,
    /// The least number of arguments of a function.
    pub least: u8,
    /// The greatest number of arguments of a function.
    pub most: u8,
    /// What else is to be said; each table has marks of its own.
    pub marks: u8,
}
