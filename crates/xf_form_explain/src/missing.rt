//! Which attribute an element lacks.

ghost use Rattle.std.specs.Prelude.{◌≡◌, map, is_some};
ghost use Rattle.xf_form_vocabulary.specs.Attributes.{shown};
ghost use Rattle.xf_form_vocabulary.specs.Needs.{has_either, lacks, lacks_by_tag};
ghost use Rattle.xf_form_explain.specs.Missing as missing;

use crate::detail::Need;
use xf_form_vocabulary::{Known, Tag, attribute as at, has};

/// The first attributes that an element needs one of and has none of.
pub fn missing(tag: Tag, is_handler: bool, known: &[Known<'_>]) -> Option<Need>
    ensures value { result ≡ missing.missing tag is_handler (map shown known.now) }
    ensures lacks { is_some result ≡ lacks tag is_handler (map shown known.now) }
{
    if is_handler && !has(known, at::EVENT) {
        return Some(Need::Event);
    }
    missing_by_tag(tag, known)
}

fn missing_by_tag(tag: Tag, known: &[Known<'_>]) -> Option<Need>
    ensures value { result ≡ missing.missing_by_tag tag (map shown known.now) }
    ensures lacks { is_some result ≡ lacks_by_tag tag (map shown known.now) }
{
    match tag {
        Tag::Submission => missing_of_submission(known),
        Tag::Repeat | Tag::Itemset | Tag::Delete => {
            unless(has_either(known, at::NODESET, at::BIND), Need::Nodes)
        }
        Tag::Input | Tag::Secret | Tag::Textarea | Tag::Select | Tag::SelectOne | Tag::SetValue =>
            unless(has_either(known, at::REF, at::BIND), Need::Node),
        Tag::Output => unless(
            has_either(known, at::REF, at::BIND) || has(known, at::VALUE),
            Need::Value,
        ),
        Tag::Load => unless(
            has_either(known, at::REF, at::BIND) || has(known, at::RESOURCE),
            Need::Source,
        ),
        Tag::SetIndex => missing_of_index(known),
        Tag::Toggle => unless(has(known, at::CASE), Need::Case),
        Tag::SetFocus => unless(has(known, at::CONTROL), Need::Control),
        Tag::Dispatch => missing_of_dispatch(known),
        _ => None,
    }
}

fn missing_of_submission(known: &[Known<'_>]) -> Option<Need>
    ensures { result ≡ missing.missing_of_submission (map shown known.now) }
{
    if !has_either(known, at::RESOURCE, at::ACTION) {
        return Some(Need::Resource);
    }
    unless(has(known, at::METHOD), Need::Method)
}

fn missing_of_index(known: &[Known<'_>]) -> Option<Need>
    ensures { result ≡ missing.missing_of_index (map shown known.now) }
{
    if !has(known, at::REPEAT) {
        return Some(Need::Repeat);
    }
    unless(has(known, at::INDEX), Need::Index)
}

fn missing_of_dispatch(known: &[Known<'_>]) -> Option<Need>
    ensures { result ≡ missing.missing_of_dispatch (map shown known.now) }
{
    if !has(known, at::NAME) {
        return Some(Need::Name);
    }
    unless(has_either(known, at::TARGET_ID, at::TARGET), Need::Target)
}

fn unless(holds: bool, need: Need) -> Option<Need>
    ensures { result ≡ missing.unless holds need }
{
    if holds { None } else { Some(need) }
}

fn has_either(known: &[Known<'_>], first: u16, second: u16) -> bool
    ensures { result ≡ has_either (map shown known.now) first second }
{
    has(known, first) || has(known, second)
}
