//! The limits that a form is held to, by their words.

/// A limit by its word.
#[derive(Clone, Copy, Debug, PartialEq, Eq)]
pub enum LimitWord {
    /// Elements, attributes and texts in the forest.
    Nodes,
    /// Bytes of one text or attribute.
    Text,
    /// Bytes of all texts, attributes and names in the forest.
    All,
    /// Elements from the top of a tree down.
    Depth,
    /// Bytes of a string in an evaluation.
    Long,
    /// What all entries read and look at.
    Edges,
    /// Control copies and items.
    Controls,
    /// Passes over the indexes at one time.
    Passes,
    /// Bytes of note lines in one event.
    Notes,
    /// Nodes made in one event.
    Made,
    /// Models, instances, binds, controls, namespaces or prefixes of a form.
    Counts,
}
