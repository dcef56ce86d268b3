//! What is sought: a kind or a name.
use xf_name::QName;

/// The principal node kind of an axis: attributes on the attribute axis, elements on the others (XPath 1.0, section 2.3).
#[derive(Clone, Copy, Debug, PartialEq, Eq)]
pub enum Principal {
    Element,
    Attribute,
}

/// Which nodes are sought: by kind, by namespace, or by namespace and local part.
#[derive(Clone, Copy, Debug)]
pub enum Sought<'a> {
    Any,
    Texts,
    All(Principal),
    InSpace(Principal, u16),
    Named(Principal, &'a QName),
    Nothing,
}
