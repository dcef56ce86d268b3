//! The elements of a form outside its instances (XForms 1.1, sections 3, 8 and 9). Each has a number: its place in document order, from 0.
//! Help, hints, alerts and extensions have none, nor has anything in them.

use crate::action::Action;
use crate::expr::Expr;
use xf_base::Items;
use xf_name::Word;

/// Elements by their numbers.
pub type ElementList = Items<u32>;

/// What `bind`, `ref` or `nodeset` binds (XForms 1.1, sections 3.2.3 and 3.2.4): where several are written, the first of these counts.
#[derive(Drop)]
pub enum Binding {
    /// None is written.
    Absent,
    /// The nodes that `ref` or `nodeset` selects.
    Nodes(Expr),
    /// The nodes of the bind of this number.
    Bind(u32),
}

/// What stands in an element.
#[derive(Drop)]
pub enum Part {
    /// A text. It is kept where the nearest element around that is no host element is a label, a value, a message or a setvalue.
    Text(Word),
    /// The element of this number.
    Element(u32),
}

/// What stands in an element, in document order.
pub type PartList = Items<Part>;

/// An element outside instances.
#[derive(Drop)]
pub struct Element {
    /// As it is written, empty where it has none.
    pub id: Word,
    /// The element in which it stands: none for the root of the form.
    pub parent: Option<u32>,
    pub parts: PartList,
    /// The model that its `model` names. A model's is the model itself.
    pub model: Option<u32>,
    /// That of a submission stands in its table.
    pub binding: Binding,
    pub kind: Kind,
}

/// The elements of a form, each at the place of its number.
pub type Elements = Items<Element>;

/// What an element is.
#[derive(Drop)]
pub enum Kind {
    /// An element outside the namespace of XForms: it means nothing itself, what stands in it does, and it may observe events.
    Host,
    /// The model of this number.
    Model(u32),
    /// The instance of this number.
    Instance(u32),
    /// The bind of this number.
    Bind(u32),
    /// The submission of this number.
    Submission(u32),
    /// A control or container, with its place among these in document order, from 1: by it one without an id is named.
    Control(u32, Control),
    Item,
    /// Its nodes are those of its binding.
    Itemset,
    Choices,
    Label,
    /// A value of an item, with its expression `value`.
    Value(Option<Expr>),
    /// An output that is part of a label's, message's or value's text and no control, with its expression `value`.
    Output(Option<Expr>),
    Action(Action),
}

/// What a control or container is (XForms 1.1, sections 8.1, 9.1 to 9.3).
#[derive(Drop)]
pub enum Control {
    Group,
    /// The switch of this number.
    Switch(u32),
    /// A case, and whether it is written as selected.
    Case(bool),
    /// The repeat of this number, and the index that it starts at.
    Repeat(u32, u32),
    Input,
    Secret,
    Textarea,
    /// An output, with its expression `value`.
    Output(Option<Expr>),
    /// A choice of several items, and whether other texts are allowed.
    Select(bool),
    /// A choice of one item, and whether other texts are allowed.
    SelectOne(bool),
    Trigger,
    /// The submission that is named, else the first of its model in scope: none where that has none.
    Submit(Option<u32>),
}
