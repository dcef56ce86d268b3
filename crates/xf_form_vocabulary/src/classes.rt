//! Classes of elements.

ghost use Rattle.std.specs.Prelude.{◌≡◌};
ghost use Rattle.xf_form_vocabulary.specs.Classes as classes;

use crate::tag::Tag;

/// Whether controls may stand in it, as they may in a host element.
pub fn is_container(tag: Tag) -> bool
    ensures { result ≡ classes.is_container tag }
{
    match tag {
        Tag::Group => true,
        Tag::Case => true,
        Tag::Repeat => true,
        _ => false,
    }
}

/// Whether it is a core control.
pub fn is_control(tag: Tag) -> bool
    ensures { result ≡ classes.is_control tag }
{
    match tag {
        Tag::Input => true,
        Tag::Secret => true,
        Tag::Textarea => true,
        Tag::Output => true,
        Tag::Select => true,
        Tag::SelectOne => true,
        Tag::Trigger => true,
        Tag::Submit => true,
        _ => false,
    }
}

/// Whether it is a core control, a container or a switch: these are counted together.
pub fn is_counted(tag: Tag) -> bool
    ensures { result ≡ classes.is_counted tag }
{
    match tag {
        Tag::Switch => true,
        _ => is_container(tag) || is_control(tag),
    }
}

/// Whether it is an action.
pub fn is_action(tag: Tag) -> bool
    ensures { result ≡ classes.is_action tag }
{
    match tag {
        Tag::Action => true,
        Tag::SetValue => true,
        Tag::Insert => true,
        Tag::Delete => true,
        Tag::SetIndex => true,
        Tag::Toggle => true,
        Tag::SetFocus => true,
        Tag::Dispatch => true,
        Tag::Send => true,
        Tag::Load => true,
        Tag::Message => true,
        Tag::Reset => true,
        Tag::Rebuild => true,
        Tag::Recalculate => true,
        Tag::Revalidate => true,
        Tag::Refresh => true,
        _ => false,
    }
}

/// Whether it has no number: what stands in it is passed over, or is read as a schema.
pub fn is_passed_over(tag: Tag) -> bool
    ensures { result ≡ classes.is_passed_over tag }
{
    match tag {
        Tag::Help => true,
        Tag::Hint => true,
        Tag::Alert => true,
        Tag::Extension => true,
        Tag::Schema => true,
        _ => false,
    }
}

/// Whether an output in it is part of its text, and no control.
pub fn tells_text(tag: Tag) -> bool
    ensures { result ≡ classes.tells_text tag }
{
    match tag {
        Tag::Label => true,
        Tag::Value => true,
        Tag::Message => true,
        _ => false,
    }
}

/// Whether the texts in it count.
pub fn keeps_text(tag: Tag) -> bool
    ensures { result ≡ classes.keeps_text tag }
{
    match tag {
        Tag::SetValue => true,
        _ => tells_text(tag),
    }
}

/// Whether it is a bind, whose expressions are computed.
pub fn has_properties(tag: Tag) -> bool
    ensures { result ≡ classes.has_properties tag }
{
    match tag {
        Tag::Bind => true,
        _ => false,
    }
}
