//! The actions of a form (XForms 1.1, section 10), and when they are called (XML Events, section 3).

use crate::expr::Expr;
use xf_name::Word;

/// An action. What it binds and the actions in it stand with its element.
#[derive(Drop)]
pub struct Action {
    /// When it is called: none for an action within another one.
    pub handler: Option<Handler>,
    /// Its `if`.
    pub condition: Option<Expr>,
    /// Its `while`.
    pub repetition: Option<Expr>,
    pub work: Work,
}

/// The phase of an event in which a handler is called (DOM Level 2 Events, section 1.2).
#[derive(Clone, Copy, Debug, PartialEq, Eq)]
pub enum Phase {
    /// Before the target is reached.
    Capture,
    /// At the target or on the way back.
    Default,
}

/// When an action is called.
#[derive(Drop)]
pub struct Handler {
    /// The name of the event.
    pub event: Word,
    /// The element that is named, else the parent: none for a root without a named one.
    pub observer: Option<u32>,
    /// The element to which the event has to go, where one is named.
    pub target: Option<u32>,
    pub phase: Phase,
    /// Whether the event goes no further than the observer.
    pub stops: bool,
    /// Whether the default action is cancelled.
    pub cancels: bool,
}

/// What an action does. What it binds is the binding of its element.
#[derive(Drop)]
pub enum Work {
    /// The actions in it, in order.
    Action,
    /// Its text is that of the expression `value`, else that of its parts.
    SetValue(Option<Expr>),
    Insert(InsertWork),
    Delete(DeleteWork),
    /// The repeat of this number, and its `index`.
    SetIndex(u32, Expr),
    /// The case that is this element.
    Toggle(u32),
    /// The control that is this element.
    SetFocus(u32),
    Dispatch(DispatchWork),
    /// The submission that is named, else the first of its model in scope: none where that has none.
    Send(Option<u32>),
    /// Its `resource`, which counts where nothing is bound: empty where it is not written.
    Load(Word),
    /// Its text is that of the bound node, else that of its parts.
    Message,
    Reset,
    Rebuild,
    Recalculate,
    Revalidate,
    Refresh,
}

/// What an insert asks for (XForms 1.1, section 10.3).
#[derive(Drop)]
pub struct InsertWork {
    pub context: Option<Expr>,
    pub origin: Option<Expr>,
    pub at: Option<Expr>,
    /// Whether the copies go before the node at the place, and not after it.
    pub is_before: bool,
}

/// What a delete asks for (XForms 1.1, section 10.4).
#[derive(Drop)]
pub struct DeleteWork {
    pub context: Option<Expr>,
    pub at: Option<Expr>,
}

/// The event that a dispatch makes (XForms 1.1, section 10.8).
#[derive(Drop)]
pub struct DispatchWork {
    pub name: Word,
    /// The element that is the target.
    pub target: u32,
    pub bubbles: bool,
    pub is_cancelable: bool,
}
