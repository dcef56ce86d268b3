//! Literal trees with resolved names.

use xf_base::Items;
use xf_name::{QName, Word};

/// An attribute by its resolved name.
#[derive(Debug, Drop)]
pub struct BareAttribute {
    pub name: QName,
    pub text: Word,
}

pub type BareAttributeList = Items<BareAttribute>;

pub type BareList = Items<Bare>;

/// A literal tree with resolved names: a text, or an element.
#[cycle(bare)]
#[derive(Drop)]
pub enum Bare {
    Text(Word),
    Element(BareElement),
}

/// An element by its resolved name, its attributes, and its children.
#[cycle(bare)]
#[derive(Drop)]
pub struct BareElement {
    pub name: QName,
    pub attributes: BareAttributeList,
    pub children: BareList,
}
