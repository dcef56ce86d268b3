//! Why an event, a construction or a start is refused.

use crate::limit::LimitWord;
use xf_base::Items;
use xf_name::Word;

/// The paths of nodes.
pub type PathList = Items<Word>;

/// Why an event, a construction or a start is refused.
#[derive(Debug, Drop)]
pub enum Refusal {
    /// No element of that kind has the id, or the rows do not stand.
    NoSuchTarget,
    /// The control is not enabled.
    Disabled,
    /// Its node is readonly.
    ReadOnly,
    /// Its items do not allow the text.
    NotAnItem,
    /// The number is not one of the rows.
    BadIndex,
    /// A property is set twice on the node with this path (XForms 1.1, section 4.5.1).
    PropertyTwice(Word),
    /// A calculate is set on the node with this path, though it has element children.
    CalculateOnParent(Word),
    /// The text of the node with this path is set, though it has element children.
    Binding(Word),
    /// The calculates of the nodes with these paths stand in a cycle.
    Circular(PathList),
    /// This limit is passed, and maybe others.
    Limit(LimitWord),
    /// One turn more is needed.
    Budget,
    /// A deeper dispatch is needed.
    Depth,
    /// One call of the store more is needed.
    Sends,
}
