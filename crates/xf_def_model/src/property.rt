//! What binds set.

/// The properties of a node that a bind sets (XForms 1.1, section 6.1), in the order in which those of one bind are applied to a node.
#[derive(Clone, Copy, Debug, PartialEq, Eq)]
pub enum Property {
    /// The type of its text.
    Kind,
    Calculate,
    Relevant,
    Readonly,
    Required,
    Constraint,
}
