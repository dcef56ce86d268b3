//! Actions as they act (XForms 1.1, sections 7.2 and 10).

use xf_def_forest::NodeList;
use xf_def_ui::Focus;

/// An action that is about to act.
#[derive(Drop)]
pub struct Acting {
    /// Its element, and the rows of the repeats around it, the outermost first.
    pub element: u32,
    pub rows: NodeList,
    /// Its model in scope, and its context.
    pub model: u32,
    pub focus: Focus,
}
