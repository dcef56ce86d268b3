//! The elements of schemas as they are read. The place of an element is that among all elements of the form, in document order.

use xf_base::Items;
use xf_name::Word;
use xf_types::SimpleType;

/// The name of a type: its namespace, empty without one, and its local part.
#[derive(Debug, Drop)]
pub struct TypeName {
    pub space: Word,
    pub local: Word,
}

/// The facets (XML Schema part 2, section 4.3).
#[derive(Clone, Copy, Debug, PartialEq, Eq)]
pub enum FacetKind {
    Length,
    MinLength,
    MaxLength,
    Enumeration,
    MinInclusive,
    MaxInclusive,
    MinExclusive,
    MaxExclusive,
    TotalDigits,
    FractionDigits,
    WhiteSpace,
}

/// A facet of a restriction, with the text of its value.
#[derive(Debug, Drop)]
pub struct Facet {
    pub kind: FacetKind,
    pub value: Word,
    pub place: u32,
}

/// A type that is named: a built-in one, or the one of this number.
#[derive(Clone, Copy, Debug, PartialEq, Eq)]
pub enum NamedType {
    BuiltIn(SimpleType),
    Declared(usize),
}

/// A simple type, which restricts another.
#[derive(Debug, Drop)]
pub struct Restriction {
    pub name: TypeName,
    /// That of the simple type.
    pub type_place: u32,
    /// None where what is written names no type.
    pub base: Option<NamedType>,
    /// That of the restriction in it.
    pub place: u32,
    pub facets: Items<Facet>,
}
