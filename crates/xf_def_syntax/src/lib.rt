//! The syntax of expressions, and the tables of a form that hold them: types alone.
#![tactic(auto)]

mod action;
mod element;
mod expr;
mod form;

pub use action::{Action, DeleteWork, DispatchWork, Handler, InsertWork, Phase, Work};
pub use element::{Binding, Control, Element, ElementList, Elements, Kind, Part, PartList};
pub use expr::{Expr, ExprList, Link, LinkList, Operator, Start, Step, StepList, Test};
pub use form::{
    Bind, BindList, Form, Instance, InstanceList, Method, PlaceList, Properties, Replace,
    Selection, Submission, SubmissionList, Tables, TypeList,
};
pub use xf_name::Axis;
pub use xf_schema::{NamedType, Restriction};
