//! What is known of a refusal.

use xf_form_vocabulary::{Choice, Wanted};
use xf_name::Word;
use xf_path::ExprKind;

/// What is known of a refusal beyond its number and its path. Attributes are told by their codes in the table of attributes, and a place
/// in an expression is the number of bytes before it.
#[derive(Debug, Drop)]
pub enum Detail {
    Nothing,
    /// The bytes are no JSON from a line and a column on, both counted from 1, or they end too early.
    Unread(usize, usize, bool),
    TooLarge,
    NotElement,
    /// What is written as the name of an element or an attribute is none.
    NoName(Word),
    DoubleAttribute,
    /// A name whose prefix has no namespace.
    UnknownPrefix(Word),
    /// A declaration that gives a prefix a second namespace, or none.
    Rebound(Word),
    NoModel,
    NoInstance,
    /// An attribute, its text, the place of the fault in it, and what it is.
    BadExpression(u16, Word, u32, ExprKind),
    /// An attribute, its text, and the place of what selects by values.
    Moving(u16, Word, u32),
    UnknownElement,
    /// The name of the element around it; empty at the root.
    Misplaced(Word),
    /// How many elements an instance has.
    NotOneElement(usize),
    NoCase,
    /// An attribute, its text, and which texts it may have.
    BadText(u16, Word, Choice),
    Lacks(Need),
    /// An id, and how many elements have it.
    DoubleId(Word, usize),
    /// An attribute, the id that it names, and which kind of element has no such id.
    NoSuchId(u16, Word, Wanted),
    UnknownType(Word),
    /// An element of a schema is bad.
    BadSchema,
    /// The limits of a word.
    Passed(Word),
}

/// Attributes that an element needs one of.
#[derive(Clone, Copy, Debug, PartialEq, Eq)]
pub enum Need {
    Event,
    /// `resource` or `action`.
    Resource,
    Method,
    /// `nodeset` or `bind`.
    Nodes,
    /// `ref` or `bind`.
    Node,
    /// `ref`, `bind` or `value`.
    Value,
    /// `ref`, `bind` or `resource`.
    Source,
    Repeat,
    Index,
    Case,
    Control,
    Name,
    /// `targetid` or `target`.
    Target,
}
