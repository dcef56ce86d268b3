//! The attributes that an element needs.

ghost use Rattle.std.specs.Prelude.{◌≡◌, map};
ghost use Rattle.xf_form_vocabulary.specs.Attributes.{shown};
ghost use Rattle.xf_form_vocabulary.specs.Needs as needs;

use crate::attribute as at;
use crate::attribute::Known;
use crate::attributes::has;
use crate::tag::Tag;

/// Whether an attribute that the element needs is missing.
pub fn lacks(tag: Tag, is_handler: bool, known: &[Known<'_>]) -> bool
    ensures { result ≡ needs.lacks tag is_handler (map shown known.now) }
{
    (is_handler && !has(known, at::EVENT)) || lacks_by_tag(tag, known)
}

fn lacks_by_tag(tag: Tag, known: &[Known<'_>]) -> bool
    ensures { result ≡ needs.lacks_by_tag tag (map shown known.now) }
{
    match tag {
        Tag::Submission => !has_either(known, at::RESOURCE, at::ACTION) || !has(known, at::METHOD),
        Tag::Repeat => !has_either(known, at::NODESET, at::BIND),
        Tag::Itemset => !has_either(known, at::NODESET, at::BIND),
        Tag::Delete => !has_either(known, at::NODESET, at::BIND),
        Tag::Input => !has_either(known, at::REF, at::BIND),
        Tag::Secret => !has_either(known, at::REF, at::BIND),
        Tag::Textarea => !has_either(known, at::REF, at::BIND),
        Tag::Select => !has_either(known, at::REF, at::BIND),
        Tag::SelectOne => !has_either(known, at::REF, at::BIND),
        Tag::SetValue => !has_either(known, at::REF, at::BIND),
        Tag::Output => !has_either(known, at::REF, at::BIND) && !has(known, at::VALUE),
        Tag::Load => !has_either(known, at::REF, at::BIND) && !has(known, at::RESOURCE),
        Tag::SetIndex => !has(known, at::REPEAT) || !has(known, at::INDEX),
        Tag::Toggle => !has(known, at::CASE),
        Tag::SetFocus => !has(known, at::CONTROL),
        Tag::Dispatch => !has(known, at::NAME) || !has_either(known, at::TARGET_ID, at::TARGET),
        _ => false,
    }
}

fn has_either(known: &[Known<'_>], first: u16, second: u16) -> bool
    ensures { result ≡ needs.has_either (map shown known.now) first second }
{
    has(known, first) || has(known, second)
}
