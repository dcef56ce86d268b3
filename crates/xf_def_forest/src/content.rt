//! What a node is.

use xf_name::{QName, Word};

/// The kind of a node (XPath 1.0, section 5).
#[derive(Clone, Copy, Debug, PartialEq, Eq)]
pub enum Kind {
    Root,
    Element,
    Attribute,
    Text,
}

/// The name of a node: what it means, and its prefix as it is written, empty where it has none.
#[derive(Debug, Drop)]
pub struct Name {
    pub meaning: QName,
    pub prefix: Word,
}

/// What a node is: the root of an instance, an element, an attribute with its text, or a text.
#[derive(Debug, Drop)]
pub enum Content {
    Root,
    Element(Name),
    Attribute(Name, Word),
    Text(Word),
}

/// A node with its number, and how many nodes are above it in its tree.
#[derive(Debug, Drop)]
pub struct Node {
    pub number: u128,
    pub depth: u32,
    pub content: Content,
}
