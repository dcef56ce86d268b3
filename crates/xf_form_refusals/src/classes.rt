//! Kinds of elements that are counted, and that ids name.

ghost use Rattle.std.specs.Prelude.{◌≡◌};
ghost use Rattle.xf_form_refusals.specs.Classes as classes;
ghost use Rattle.xf_form_refusals.specs.Rows.{shown};

use crate::rows::{Row, is_control_row, is_numbered};
use crate::standing::{is_instance, is_outside};
use xf_form_vocabulary::{Tag, Wanted, has_properties};

/// A kind of element outside instances.
#[derive(Clone, Copy, Debug, PartialEq, Eq)]
pub enum Class {
    /// Any, also one whose content is passed over.
    Outside,
    /// Any that has a number.
    Numbered,
    Model,
    Instance,
    Bind,
    Submission,
    Repeat,
    Switch,
    Case,
    /// A control or container.
    Control,
}

/// The kind that an attribute names.
pub fn class_of(wanted: Wanted) -> Class
    ensures { result ≡ classes.class_of wanted }
{
    match wanted {
        Wanted::Model => Class::Model,
        Wanted::Instance => Class::Instance,
        Wanted::Bind => Class::Bind,
        Wanted::Submission => Class::Submission,
        Wanted::Repeat => Class::Repeat,
        Wanted::Case => Class::Case,
        Wanted::Control => Class::Control,
        Wanted::Any => Class::Numbered,
    }
}

/// Whether an element is of the kind.
pub fn is_of(class: Class, row: &Row<'_>) -> bool
    ensures { result ≡ classes.is_of class (shown row.now) }
{
    match class {
        Class::Outside => is_outside(row.standing.zone),
        _ => is_numbered(row) && is_of_class(class, row),
    }
}

fn is_of_class(class: Class, row: &Row<'_>) -> bool
    ensures { result ≡ classes.is_of_class class (shown row.now) }
{
    match class {
        Class::Model => is_model(row.tag),
        Class::Instance => is_instance(row.tag),
        Class::Bind => has_properties(row.tag),
        Class::Submission => is_submission(row.tag),
        Class::Repeat => is_repeat(row.tag),
        Class::Switch => is_switch(row.tag),
        Class::Case => is_case(row.tag),
        Class::Control => is_control_row(row),
        _ => true,
    }
}

pub fn is_model(tag: Tag) -> bool
    ensures { result ≡ classes.is_model tag }
{
    match tag {
        Tag::Model => true,
        _ => false,
    }
}

fn is_submission(tag: Tag) -> bool
    ensures { result ≡ classes.is_submission tag }
{
    match tag {
        Tag::Submission => true,
        _ => false,
    }
}

fn is_repeat(tag: Tag) -> bool
    ensures { result ≡ classes.is_repeat tag }
{
    match tag {
        Tag::Repeat => true,
        _ => false,
    }
}

pub fn is_switch(tag: Tag) -> bool
    ensures { result ≡ classes.is_switch tag }
{
    match tag {
        Tag::Switch => true,
        _ => false,
    }
}

pub fn is_case(tag: Tag) -> bool
    ensures { result ≡ classes.is_case tag }
{
    match tag {
        Tag::Case => true,
        _ => false,
    }
}
