//! Where elements may stand.

ghost use Rattle.std.specs.Prelude.{◌≡◌};
ghost use Rattle.xf_form_vocabulary.specs.Placement as placement;

use crate::classes::{is_container, is_control};
use crate::tag::Tag;

/// Whether an element may stand in another one. The root of a form stands as in a host element.
pub fn may_stand(tag: Tag, around: Tag) -> bool
    ensures { result ≡ placement.may_stand tag around }
{
    match tag {
        Tag::Host => true,
        Tag::Unknown => false,
        Tag::Instance => is_model(around),
        Tag::Submission => is_model(around),
        Tag::Schema => is_model(around),
        Tag::Bind => holds_binds(around),
        Tag::Case => is_switch(around),
        Tag::Output => is_open(around) || tells_outputs(around),
        Tag::Item => holds_choices(around),
        Tag::Itemset => holds_choices(around),
        Tag::Choices => holds_choices(around),
        Tag::Value => is_item(around),
        Tag::Label => has_label(around),
        Tag::Help => !is_host(around),
        Tag::Hint => !is_host(around),
        Tag::Alert => !is_host(around),
        Tag::Extension => !is_host(around),
        Tag::Model => is_open(around),
        Tag::Switch => is_open(around),
        Tag::Group => is_open(around),
        Tag::Repeat => is_open(around),
        _ => may_stand_by_class(tag, around),
    }
}

/// Whether a core control or an action may stand in an element.
fn may_stand_by_class(tag: Tag, around: Tag) -> bool
    ensures { result ≡ placement.may_stand_by_class tag around }
{
    if is_control(tag) {
        return is_open(around);
    }
    holds_actions(around)
}

fn is_host(tag: Tag) -> bool
    ensures { result ≡ placement.is_host tag }
{
    match tag {
        Tag::Host => true,
        _ => false,
    }
}

fn is_model(tag: Tag) -> bool
    ensures { result ≡ placement.is_model tag }
{
    match tag {
        Tag::Model => true,
        _ => false,
    }
}

fn is_switch(tag: Tag) -> bool
    ensures { result ≡ placement.is_switch tag }
{
    match tag {
        Tag::Switch => true,
        _ => false,
    }
}

/// Whether it is a host element or a container.
fn is_open(tag: Tag) -> bool
    ensures { result ≡ placement.is_open tag }
{
    is_host(tag) || is_container(tag)
}

fn holds_binds(tag: Tag) -> bool
    ensures { result ≡ placement.holds_binds tag }
{
    match tag {
        Tag::Model => true,
        Tag::Bind => true,
        _ => false,
    }
}

fn tells_outputs(tag: Tag) -> bool
    ensures { result ≡ placement.tells_outputs tag }
{
    match tag {
        Tag::Message => true,
        Tag::Label => true,
        _ => false,
    }
}

fn holds_choices(tag: Tag) -> bool
    ensures { result ≡ placement.holds_choices tag }
{
    match tag {
        Tag::Select => true,
        Tag::SelectOne => true,
        Tag::Choices => true,
        _ => false,
    }
}

fn is_item(tag: Tag) -> bool
    ensures { result ≡ placement.is_item tag }
{
    match tag {
        Tag::Item => true,
        Tag::Itemset => true,
        _ => false,
    }
}

fn has_label(tag: Tag) -> bool
    ensures { result ≡ placement.has_label tag }
{
    match tag {
        Tag::Choices => true,
        Tag::Group => true,
        Tag::Case => true,
        _ => is_item(tag) || is_control(tag),
    }
}

fn holds_actions(tag: Tag) -> bool
    ensures { result ≡ placement.holds_actions tag }
{
    match tag {
        Tag::Model => true,
        Tag::Submission => true,
        Tag::Action => true,
        _ => is_open(tag) || is_control(tag),
    }
}
