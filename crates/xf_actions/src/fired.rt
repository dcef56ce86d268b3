//! Events as they are dispatched (DOM Level 2 Events, section 1.2; XForms 1.1, section 4).

use xf_base::Items;
use xf_def_forest::NodeList;
use xf_def_ui::PropertyList;
use xf_name::Word;

/// An event to a copy of an element.
#[derive(Drop)]
pub struct Fired {
    pub name: Word,
    /// The element that is the target, and the rows of the repeats around it, the outermost first.
    pub target: u32,
    pub rows: NodeList,
    pub bubbles: bool,
    pub is_cancelable: bool,
    pub properties: PropertyList,
}

/// Events, in the order in which they are told.
pub type FiredList = Items<Fired>;

/// How a submission ended.
#[derive(Drop)]
pub struct Ending {
    /// Its number.
    pub submission: u32,
    /// The type of its error, where it failed.
    pub failure: Option<Word>,
}

/// What a default action tells: events, and then the end of a submission.
#[derive(Drop)]
pub struct Concluded {
    pub events: FiredList,
    pub ending: Option<Ending>,
}
