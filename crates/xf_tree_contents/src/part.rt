//! What a tree that comes in is made of.
use xf_def_forest::Content;

/// A node of a tree: its depth below the top, and its content. A tree is the list of these in document order.
pub type Part = (u32, Content);
