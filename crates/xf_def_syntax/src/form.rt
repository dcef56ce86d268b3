//! The tables of a form (XForms 1.1, section 3). Models, instances, binds, submissions, repeats and switches are numbered in document order
//! among their kind, from 0.

use crate::element::{ElementList, Elements};
use crate::expr::Expr;
use xf_base::Items;
use xf_name::Word;
use xf_num::Decimals;
use xf_schema::{NamedType, Restriction};

/// Places among the parts of elements, each within the one before.
pub type PlaceList = Items<u32>;

/// An instance: its tree stands under the root of its number.
#[derive(Drop)]
pub struct Instance {
    pub model: u32,
    /// Empty where it has none.
    pub id: Word,
    /// Where its document element stands in the form as it was read: its place among what stands in each element on the way down from the
    /// root of the form, texts included, from 0.
    pub place: PlaceList,
    /// The namespace that an element without a prefix has there.
    pub space: u16,
}

/// The instances of all models.
pub type InstanceList = Items<Instance>;

/// The properties that a bind gives to the nodes it selects (XForms 1.1, section 6.1).
#[derive(Drop)]
pub struct Properties {
    pub kind: Option<NamedType>,
    pub calculate: Option<Expr>,
    pub relevant: Option<Expr>,
    pub readonly: Option<Expr>,
    pub required: Option<Expr>,
    pub constraint: Option<Expr>,
}

/// A bind: its node set is `.` where none is written.
#[derive(Drop)]
pub struct Bind {
    pub model: u32,
    /// Empty where it has none.
    pub id: Word,
    /// The bind in which it stands.
    pub around: Option<u32>,
    pub node_set: Expr,
    pub properties: Properties,
}

/// The binds of all models.
pub type BindList = Items<Bind>;

/// What a submission sends: the first document of its model, the first node of an expression, or that of a bind.
#[derive(Drop)]
pub enum Selection {
    Whole,
    Ref(Expr),
    Bind(u32),
}

/// How a submission calls the store (XForms 1.1, section 11.9).
#[derive(Clone, Copy, Debug, PartialEq, Eq)]
pub enum Method {
    Put,
    Post,
    Get,
}

/// What the response of a submission replaces (XForms 1.1, section 11.1).
#[derive(Clone, Copy, Debug, PartialEq, Eq)]
pub enum Replace {
    /// Nothing: a note is added.
    All,
    /// The target, by the element that the response is.
    Instance,
    /// The text of the target.
    Text,
    Nothing,
}

/// A submission (XForms 1.1, section 11.1).
#[derive(Drop)]
pub struct Submission {
    pub model: u32,
    /// Empty where it has none.
    pub id: Word,
    pub selection: Selection,
    /// Whether irrelevant nodes are left out.
    pub is_relevant: bool,
    /// Whether invalid nodes prevent it.
    pub is_validated: bool,
    /// The name in the store: `resource`, else `action`.
    pub resource: Word,
    pub method: Method,
    pub replace: Replace,
    /// The instance whose document element is replaced where no target is written.
    pub instance: Option<u32>,
    /// `targetref`.
    pub target: Option<Expr>,
    /// Whether what is selected is sent; with the serialization `none` no bytes are.
    pub is_serialized: bool,
}

/// The submissions of all models.
pub type SubmissionList = Items<Submission>;

/// The types by restriction of all schemas of a form.
pub type TypeList = Items<Restriction>;

/// The tables of all models of a form.
#[derive(Drop)]
pub struct Tables {
    /// How many models there are.
    pub models: u32,
    pub instances: InstanceList,
    pub binds: BindList,
    pub submissions: SubmissionList,
    /// In document order: a bind names one by its number.
    pub types: TypeList,
}

/// A form: its models, and all elements outside its instances.
pub struct Form {
    /// How many decimals its numbers have: the attribute `decimals` of the first model.
    pub decimals: Decimals,
    pub tables: Tables,
    pub elements: Elements,
    /// The elements of what is numbered among its kind, by these numbers.
    pub models: ElementList,
    pub instances: ElementList,
    pub binds: ElementList,
    pub submissions: ElementList,
    pub repeats: ElementList,
    pub switches: ElementList,
}

// Written out: a derived one is proved anew for each type within it, in each crate that gives one up.
impl Drop for Form {
    fn drop(self) {
        let Form {
            decimals: _,
            tables: _,
            elements: _,
            models: _,
            instances: _,
            binds: _,
            submissions: _,
            repeats: _,
            switches: _,
        } = self;
    }
}
