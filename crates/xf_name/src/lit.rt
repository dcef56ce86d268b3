//! Literal trees: what a tree is before its names are resolved.

use crate::word::Word;
use xf_base::Items;

/// A written name and its text.
#[derive(Debug, Drop)]
pub struct Pair {
    pub name: Word,
    pub text: Word,
}

/// The attributes of an element, declarations of namespaces among them.
pub type PairList = Items<Pair>;

/// Trees, one after another.
pub type LitList = Items<Lit>;

/// A literal tree: a text, or an element.
#[cycle(lit)]
#[derive(Drop)]
pub enum Lit {
    Text(Word),
    Element(LitElement),
}

/// An element by its written name, its attributes by their written names, and its children.
#[cycle(lit)]
#[derive(Drop)]
pub struct LitElement {
    pub name: Word,
    pub attributes: PairList,
    pub children: LitList,
}
