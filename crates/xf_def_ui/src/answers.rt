//! What is answered of items and handlers.

use xf_base::Items;
use xf_def_syntax::ElementList;
use xf_name::Word;

/// An item of a select (XForms 1.1, section 8.3.2).
#[derive(Drop)]
pub struct Item {
    pub label: Word,
    pub value: Word,
}

/// The items of a select, in document order.
pub type ItemList = Items<Item>;

/// What an event calls (DOM Level 2 Events, section 1.2).
#[derive(Drop)]
pub struct CallList {
    /// The elements that are the handlers, in the order in which they are called.
    pub handlers: ElementList,
    /// Whether the default action of the event follows.
    pub with_default: bool,
}
